// Reading a shelf through, and its holdings as filters.
ghost use Rattle.std.specs.Prelude.{◌≡◌, ◌<◌, Ok, IfOk};
ghost use Rattle.table.specs.Table.{table_of};
ghost use Rattle.table.specs.Results.{dropped};
ghost use Rattle.holdings.specs.Memory.{memory_of, holding};
ghost use Rattle.holdings.specs.Check.{checked_shelf};

use crate::memory::Shelf;
use alphabet::Alphabet;
use answers::Fault;
use table::Filter;

// A shelf that can be read: it fits, and every holding is sound.
#[derive(Drop)]
pub struct Readable<'s, 'a, A: Alphabet> {
    pub shelf: &'s Shelf<'a, A>,
    pub ghost readable: { checked_shelf A.model (memory_of shelf.now) ≡ Ok tt },
}

impl<'s, 'a, A: Alphabet> Readable<'s, 'a, A> {
    // Reads a shelf through: it can be read, or this is its first fault.
    pub fn new(shelf: &'s Shelf<'a, A>) -> Result<Readable<'s, 'a, A>, Fault>
        ensures answer { dropped result ≡ checked_shelf A.model (memory_of shelf.now) }
        ensures shelf { IfOk result (λ r. memory_of r.shelf.now ≡ memory_of shelf.now) }
    {
        shelf.check()?;
        Ok(Readable { shelf })
    }

    // The holding behind i others.
    pub fn filter(&self, i: usize) -> Filter<'s, A>
        requires { i < self.now.shelf.now.head.holdings }
        ensures { table_of result.draft ≡ holding (memory_of self.now.shelf.now) i }
    {
        Filter {
            draft: self.shelf.view(i),
        }
    }
}
