// Joining two holdings.
ghost use Rattle.holdings.specs.Memory.{memory_of};
ghost use Rattle.shelf_law.specs.Calls.{Joining, Does};
ghost use Rattle.shelf_law.specs.Composition.{JoinedUnder};
ghost use Rattle.shelf_law.specs.History.{call_of};
ghost use Rattle.shelf_law.specs.Law.{KeepsLaw};
ghost use Rattle.shelf.specs.Lent.{lent, lent_lists};

use crate::lent::{JoinLists, Scratch};
use alphabet::Alphabet;
use answers::Fault;
use holdings::Shelf;
use joining::place_joined;

// Puts the join of the holdings of two numbers behind the others, and answers its number: the filter that does what the
// first does and then the second. Refused as filing is, and where there is no such holding, or the joined filter is over
// a limit or over the lists.
pub fn join<A: Alphabet>(
    shelf: &mut Shelf<'_, A>,
    first: usize,
    second: usize,
    lists: JoinLists<'_, A>,
    scratch: Scratch<'_>,
) -> Result<usize, Fault>
    ensures does { Does A.model (lent scratch.entry) (memory_of shelf.old) (Joining first second (lent_lists lists.entry)) result (memory_of shelf.new) }
    ensures law { KeepsLaw A.model (call_of (Joining first second (lent_lists lists.entry)) (lent scratch.entry) (memory_of shelf.old) result (memory_of shelf.new)) }
    ensures composes { JoinedUnder A.model (memory_of shelf.old) first second result (memory_of shelf.new) }
{
    shelf.check()?;
    shelf.place(first)?;
    shelf.place(second)?;
    let JoinLists {
        states,
        rules,
        outputs,
        pairs,
    } = lists;
    let Scratch { steps, symbols } = scratch;
    place_joined(
        shelf, first, second, states, rules, outputs, pairs, steps, symbols,
    )
}
