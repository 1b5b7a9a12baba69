// Whether the caller's scratch is enough for comparisons.
ghost use Rattle.std.specs.Prelude.{Decides};
ghost use Rattle.table.specs.Table.{table_of};
ghost use Rattle.holdings.specs.Memory.{memory_of};
ghost use Rattle.shelf_law.specs.Holdings.{First};
ghost use Rattle.shelf_law.specs.Scratch.{scratch_of, Short};

use alphabet::Alphabet;
use holdings::Readable;
use judging::FilterPair;
use table::Filter;

// Whether so many slots for steps and so many symbols are too few to compare two filters.
pub fn is_short<A: Alphabet>(
    left: &Filter<'_, A>,
    right: &Filter<'_, A>,
    steps: usize,
    symbols: usize,
) -> bool
    ensures { Decides result (Short A.model (scratch_of steps symbols) (table_of left.now.draft) (table_of right.now.draft)) }
{
    let pair = FilterPair::new(left, right);
    steps < pair.steps() || symbols < pair.symbols()
}

// The number of the lowest holding against which they are too few, or none.
pub fn first_short<A: Alphabet>(
    shelf: &Readable<'_, '_, A>,
    filter: &Filter<'_, A>,
    steps: usize,
    symbols: usize,
) -> Option<usize>
    ensures { First (memory_of shelf.now.shelf.now) (Short A.model (scratch_of steps symbols) (table_of filter.now.draft)) result }
{
    for i in 0..shelf.shelf.head.holdings {
        let holding = shelf.filter(i);
        if is_short(filter, &holding, steps, symbols) {
            return Some(i + 1);
        }
    }
    None
}
