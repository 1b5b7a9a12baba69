// The comparison of two filters.
ghost use Rattle.std.specs.Prelude.{◌≡◌, ℕ, ◌+◌, ◌*◌, ◌<◌, ◌≤◌, [], ◌∷◌, length, slice_set};
ghost use Rattle.queue.specs.Held.{entries as entries_of, room as slots_of};
ghost use Rattle.table.specs.Table.{table_of};
ghost use Rattle.equivalence.specs.Answers.{root_step, root_place, Compared};
ghost use Rattle.equivalence.specs.Decided.{Decides};

use crate::search::search;
use alphabet::Alphabet;
use judging::FilterPair;
use queue::Queue;
use steps::{Side, Step, place_of};
use table::Filter;

// The caller's scratch is too short.
#[derive(Clone, Copy)]
pub struct ScratchShort;

// Puts the step of the empty text into the queue, and its number into the cell of its place.
fn start<A: Alphabet>(pair: &FilterPair<'_, '_, A>, queue: &mut Queue<'_, Step>, cells: &mut [u32])
    requires slots { 0 < slots_of queue.old }
    requires cells { root_place < length cells.old }
    requires fresh { entries_of queue.old ≡ [] }
    ensures entries { entries_of queue.new ≡ root_step ∷ [] }
    ensures cells { cells.new ≡ slice_set cells.old root_place 0 }
    ensures taken { queue.new.taken ≡ queue.old.taken }
    ensures slots { slots_of queue.new ≡ slots_of queue.old }
{
    let side = Side {
        state: Some(0),
        ..Side::default()
    };
    let step = Step {
        left: side,
        right: side,
        ..Step::default()
    };
    let place = place_of(
        pair.frame.left,
        pair.frame.right,
        side.state,
        side.state,
        step.visit,
    );
    if let Ok(_) = queue.push(step) {
        cells[place] = 0;
    }
}

// Compares two filters: answers the step of the earliest text that distinguishes them, or none where they do the same to
// every text. The steps of the texts that it looks at wait in the queue, which is empty at first. Refuses where the queue
// or the symbols have too little room, and then looks at nothing.
pub fn compare<A: Alphabet>(
    left: &Filter<'_, A>,
    right: &Filter<'_, A>,
    queue: &mut Queue<'_, Step>,
    symbols: &mut [u32],
) -> Result<Option<usize>, ScratchShort>
    requires fresh { entries_of queue.old ≡ [] }
    requires taken { queue.old.taken ≡ 0 }
    ensures answer { Compared A.model (table_of left.now.draft) (table_of right.now.draft) (slots_of queue.old) (length symbols.old) (entries_of queue.new) result }
    ensures decides { Decides A.model (table_of left.now.draft) (table_of right.now.draft) (entries_of queue.new) result }
{
    let pair = FilterPair::new(left, right);
    if queue.room() < pair.steps() || symbols.len() < pair.symbols() {
        return Err(ScratchShort);
    }
    let (cells, outputs) = symbols.split_at_mut(pair.frame.room);
    start(&pair, queue, cells);
    Ok(search(&pair, queue, cells, outputs))
}
