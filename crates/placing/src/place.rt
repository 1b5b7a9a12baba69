// Putting a sound filter on a shelf.
ghost use Rattle.std.specs.Prelude.{◌≡◌, length, Ok};
ghost use Rattle.table.specs.Table.{table_of};
ghost use Rattle.holdings.specs.Memory.{memory_of};
ghost use Rattle.holdings.specs.Check.{checked_shelf};
ghost use Rattle.shelf_law.specs.Scratch.{scratch_of};
ghost use Rattle.shelf_law.specs.Placing.{Placing};

use crate::doubles::first_double;
use crate::scratch::first_short;
use alphabet::Alphabet;
use answers::Fault;
use holdings::{Readable, Shelf};
use steps::Step;
use table::Filter;

// Puts a filter behind the holdings, unless the scratch is too small against one of them, or one is equivalent to it, or
// there is no room; answers its number. The clause that the shelf can be read stands here, and no `Readable` is taken: that
// only lends the shelf, which changes here.
pub fn place<A: Alphabet>(
    shelf: &mut Shelf<'_, A>,
    filter: &Filter<'_, A>,
    steps: &mut [Step],
    symbols: &mut [u32],
) -> Result<usize, Fault>
    requires readable { checked_shelf A.model (memory_of shelf.old) ≡ Ok tt }
    ensures { Placing A.model (scratch_of (length steps.old) (length symbols.old)) (memory_of shelf.old) (table_of filter.now.draft) result (memory_of shelf.new) }
{
    let readable = Readable { shelf: &*shelf };
    if let Some(number) = first_short(&readable, filter, steps.len(), symbols.len()) {
        return Err(Fault::ShortScratch(number));
    }
    if let Some(number) = first_double(&readable, filter, steps, symbols) {
        return Err(Fault::Double(number));
    }
    shelf.append(&filter.draft)?;
    Ok(shelf.head.holdings)
}
