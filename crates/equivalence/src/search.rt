// The search for the earliest text that distinguishes two filters.
ghost use Rattle.std.specs.Prelude.{◌≡◌, ℕ, ◌+◌, ◌*◌, ◌<◌, ◌≤◌, [], length, Decides};
ghost use Rattle.queue.specs.Held.{entries as entries_of, room as slots_of};
ghost use Rattle.machine.specs.Compared.{Told};
ghost use Rattle.table.specs.Table.{table_of};
ghost use Rattle.filter.specs.Machines.{machine_of};
ghost use Rattle.steps.specs.Places.{steps_needed_lem};
ghost use Rattle.replay.specs.Replays.{Tracks, Attached, Agrees, RoomFor};
ghost use Rattle.judging.specs.Kept.{Turned};
ghost use Rattle.equivalence.specs.Answers.{text_in, Early};

use alphabet::Alphabet;
use judging::FilterPair;
use queue::Queue;
use replay::agree;
use steps::Step;
use trying::expand;

// Whether the two filters do the same to the text of a step.
fn step_agrees<A: Alphabet>(
    pair: &FilterPair<'_, '_, A>,
    steps: &[Step],
    step: Step,
    outputs: &mut [u32],
) -> bool
    requires tracks { Tracks A.model (table_of pair.now.left.now.draft) (table_of pair.now.right.now.draft) steps.now }
    requires attached { Attached A.model (table_of pair.now.left.now.draft) (table_of pair.now.right.now.draft) steps.now step }
    requires rooml { RoomFor A.model (table_of pair.now.left.now.draft) step.left pair.now.frame.room }
    requires roomr { RoomFor A.model (table_of pair.now.right.now.draft) step.right pair.now.frame.room }
    requires room { 4 * pair.now.frame.room ≤ length outputs.old }
    ensures { Decides result (Agrees A.model (table_of pair.now.left.now.draft) (table_of pair.now.right.now.draft) steps.now step) }
{
    let (x, rest) = outputs.split_at_mut(pair.frame.room);
    let (y, _) = rest.split_at_mut(pair.frame.room);
    agree(pair.left, pair.right, steps, step, x, y)
}

// The first step whose text distinguishes the two filters, or none where none does. The queue holds the step of the
// empty text.
// The queue, the cells and the outputs are three parameters, since each is a stretch of the caller's memory.
pub fn search<A: Alphabet>(
    pair: &FilterPair<'_, '_, A>,
    queue: &mut Queue<'_, Step>,
    cells: &mut [u32],
    outputs: &mut [u32],
) -> Option<usize>
    requires slots { steps_needed_lem pair.now.frame.left pair.now.frame.right ≤ slots_of queue.old }
    requires cells { steps_needed_lem pair.now.frame.left pair.now.frame.right ≤ length cells.old }
    requires room { 4 * pair.now.frame.room ≤ length outputs.old }
    requires turned { Turned A.model (table_of pair.now.left.now.draft) (table_of pair.now.right.now.draft) pair.now.frame.left pair.now.frame.right pair.now.frame.width (entries_of queue.old) cells.old queue.old.taken }
    ensures told { Told (machine_of A.model (table_of pair.now.left.now.draft)) (machine_of A.model (table_of pair.now.right.now.draft)) (text_in (entries_of queue.new) result) }
    ensures early { Early (steps_needed_lem pair.now.frame.left pair.now.frame.right) (entries_of queue.new) result }
{
    // a `while`, since the queue gets new steps in each turn
    while let Some((number, step)) = queue.next() {
        if !step_agrees(pair, queue.entries(), step, outputs) {
            return Some(number);
        }
        expand(pair, queue, cells, number, step, outputs);
    }
    None
}
