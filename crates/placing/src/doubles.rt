// Looking for a holding that is equivalent to a filter.
ghost use Rattle.std.specs.Prelude.{length, Decides};
ghost use Rattle.table.specs.Table.{table_of};
ghost use Rattle.filter.specs.Meaning.{Equivalent};
ghost use Rattle.holdings.specs.Memory.{memory_of};
ghost use Rattle.shelf_law.specs.Holdings.{EveryHolding, First};
ghost use Rattle.shelf_law.specs.Scratch.{scratch_of, Enough};

use alphabet::Alphabet;
use equivalence::compare::compare;
use holdings::Readable;
use queue::Queue;
use steps::Step;
use table::Filter;

// Whether two filters are equivalent.
pub fn are_equivalent<A: Alphabet>(
    left: &Filter<'_, A>,
    right: &Filter<'_, A>,
    steps: &mut [Step],
    symbols: &mut [u32],
) -> bool
    requires enough { Enough A.model (scratch_of (length steps.old) (length symbols.old)) (table_of left.now.draft) (table_of right.now.draft) }
    ensures { Decides result (Equivalent A.model (table_of left.now.draft) (table_of right.now.draft)) }
{
    let mut queue = Queue::new(steps);
    let Ok(answer) = compare(left, right, &mut queue, symbols) else {
        return false;
    };
    match answer {
        None => true,
        Some(_) => false,
    }
}

// The number of the lowest holding that is equivalent to a filter, or none. This and `first_short` are loops of their own:
// the test here changes the scratch that it is lent, and a search over a closure would have to speak of each of its states.
pub fn first_double<A: Alphabet>(
    shelf: &Readable<'_, '_, A>,
    filter: &Filter<'_, A>,
    steps: &mut [Step],
    symbols: &mut [u32],
) -> Option<usize>
    requires enough { EveryHolding (memory_of shelf.now.shelf.now) (Enough A.model (scratch_of (length steps.old) (length symbols.old)) (table_of filter.now.draft)) }
    ensures { First (memory_of shelf.now.shelf.now) (Equivalent A.model (table_of filter.now.draft)) result }
{
    for i in 0..shelf.shelf.head.holdings {
        let holding = shelf.filter(i);
        if are_equivalent(filter, &holding, &mut *steps, &mut *symbols) {
            return Some(i + 1);
        }
    }
    None
}
