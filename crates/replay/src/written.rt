// What a filter writes for the text of a step.
ghost use Rattle.std.specs.Prelude.{◌≡◌, ℕ, ◌+◌, ◌-◌, ◌<◌, ◌≤◌, length, take};
ghost use Rattle.table.specs.Table.{table_of};
ghost use Rattle.steps.specs.Steps.{side_of, text as text_of, Tree};
ghost use Rattle.replay.specs.Replays.{Sits, Traced, output_by, whole_by, wrote, RoomFor, Within};

use alphabet::Alphabet;
use filter::walk::{emit, finish};
use steps::{Hand, Step, side_of};
use table::{Draft, Filter};

// Writes what a filter writes on the way over the text of a step, and answers how much that is. Each step says where the
// outputs of its rule stand and where they end in the whole, so it goes from the last symbol to the first: a `while`, since
// only the way up the parents tells which steps are on it.
pub fn output<A: Alphabet>(
    draft: &Draft<'_, A>,
    hand: Hand,
    steps: &[Step],
    step: Step,
    out: &mut [u32],
) -> usize
    requires tree { Tree steps.now }
    requires traced { Traced A.model (table_of draft.now) hand steps.now }
    requires above { step.parent < length steps.now }
    requires sits { Sits A.model (table_of draft.now) (text_of steps.now step.parent) step.symbol (side_of hand step) }
    requires room { (side_of hand step).total ≤ length out.old }
    ensures count { result ≡ (side_of hand step).total }
    ensures output { take result out.new ≡ output_by A.model (table_of draft.now) (text_of steps.now step.parent) step.symbol (side_of hand step) }
{
    let mut at = step;
    let mut side = side_of(at, hand);
    let total = side.total as usize;
    while side.total > 0 {
        let from = side.from as usize;
        let to = side.to as usize;
        let place = side.total as usize - (to - from);
        emit::<A>(&draft.outputs[from..to], at.symbol, out, place);
        at = steps[at.parent as usize];
        side = side_of(at, hand);
    }
    total
}

// Writes all that a filter writes for the text of a step, its final output included, and answers how much that is; or
// none where it rejects the text.
pub fn whole<A: Alphabet>(
    filter: &Filter<'_, A>,
    hand: Hand,
    steps: &[Step],
    step: Step,
    out: &mut [u32],
) -> Option<usize>
    requires tree { Tree steps.now }
    requires traced { Traced A.model (table_of filter.now.draft) hand steps.now }
    requires above { step.parent < length steps.now }
    requires sits { Sits A.model (table_of filter.now.draft) (text_of steps.now step.parent) step.symbol (side_of hand step) }
    requires room { RoomFor A.model (table_of filter.now.draft) (side_of hand step) (length out.old) }
    ensures whole { wrote result out.new ≡ whole_by A.model (table_of filter.now.draft) (text_of steps.now step.parent) step.symbol (side_of hand step) }
    ensures fits { Within result (length out.old) }
{
    let state = side_of(step, hand).state?;
    let count = output(&filter.draft, hand, steps, step, out);
    finish(filter, state, out, count)
}
