// Filing a filter.
ghost use Rattle.table.specs.Table.{table_of};
ghost use Rattle.holdings.specs.Memory.{memory_of};
ghost use Rattle.shelf_law.specs.Calls.{Filing, Does};
ghost use Rattle.shelf_law.specs.History.{call_of};
ghost use Rattle.shelf_law.specs.Law.{KeepsLaw};
ghost use Rattle.shelf.specs.Lent.{lent};

use crate::lent::Scratch;
use alphabet::Alphabet;
use answers::Fault;
use holdings::Shelf;
use placing::place::place;
use table::{Draft, Filter};

// Puts a filter behind the holdings and answers its number, unless the shelf cannot be read, the filter is unsound, the
// scratch is too small against a holding, a holding is equivalent to it, or there is no room.
pub fn file<A: Alphabet>(
    shelf: &mut Shelf<'_, A>,
    draft: &Draft<'_, A>,
    scratch: Scratch<'_>,
) -> Result<usize, Fault>
    ensures does { Does A.model (lent scratch.entry) (memory_of shelf.old) (Filing (table_of draft.now)) result (memory_of shelf.new) }
    ensures law { KeepsLaw A.model (call_of (Filing (table_of draft.now)) (lent scratch.entry) (memory_of shelf.old) result (memory_of shelf.new)) }
{
    shelf.check()?;
    let filter = Filter::new(*draft)?;
    let Scratch { steps, symbols } = scratch;
    place(shelf, &filter, steps, symbols)
}
