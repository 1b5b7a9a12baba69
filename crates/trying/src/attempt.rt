// Trying a symbol, and all symbols worth trying, behind the text of a step.
ghost use Rattle.std.specs.Prelude.{◌≡◌, ◌+◌, ◌*◌, ◌<◌, ◌≤◌, true, false, length};
ghost use Rattle.queue.specs.Held.{entries as entries_of, room as slots_of};
ghost use Rattle.table.specs.Table.{table_of};
ghost use Rattle.steps.specs.Steps.{at as step_at};
ghost use Rattle.steps.specs.Places.{steps_needed_lem};
ghost use Rattle.replay.specs.Replays.{Tracks};
ghost use Rattle.judging.specs.Frames.{both_dead_lem};
ghost use Rattle.judging.specs.Kept.{Kept, Going, Turned, Extends};

use alphabet::Alphabet;
use classes::{Standing, next_symbol};
use judging::FilterPair;
use judging::judge::judge;
use moves::onward;
use queue::Queue;
use steps::{Step, Visit, place_of};

// Whether no side has a state.
fn both_dead(left: Option<u16>, right: Option<u16>) -> bool
    ensures { result ≡ both_dead_lem left right }
{
    left.is_none() && right.is_none()
}

// The step that goes on from one of the steps by a symbol.
fn extension<A: Alphabet>(
    pair: &FilterPair<'_, '_, A>,
    steps: &[Step],
    number: usize,
    symbol: u32,
) -> Step
    requires tracks { Tracks A.model (table_of pair.now.left.now.draft) (table_of pair.now.right.now.draft) steps.now }
    requires within { number < length steps.now }
    requires few { length steps.now ≤ steps_needed_lem pair.now.frame.left pair.now.frame.right }
    requires lefts { (step_at steps.now number).left.total ≤ number * pair.now.frame.width }
    requires rights { (step_at steps.now number).right.total ≤ number * pair.now.frame.width }
    ensures parent { result.parent ≡ number }
    ensures symbol { result.symbol ≡ symbol }
    ensures extends { Extends A.model (table_of pair.now.left.now.draft) (table_of pair.now.right.now.draft) pair.now.frame.left pair.now.frame.right pair.now.frame.width steps.now result }
{
    let step = steps[number];
    Step {
        parent: number as u16,
        symbol,
        left: onward(pair.left, pair.frame.left_first, step.left, symbol),
        right: onward(pair.right, pair.frame.right_first, step.right, symbol),
        visit: Visit::First,
    }
}

// Tries a symbol behind the text of a step: a step is made for the longer text if that is worth one.
// The queue, the cells and the outputs are three parameters, since each is a stretch of the caller's memory.
pub fn attempt<A: Alphabet>(
    pair: &FilterPair<'_, '_, A>,
    queue: &mut Queue<'_, Step>,
    cells: &mut [u32],
    number: usize,
    symbol: u32,
    outputs: &mut [u32],
)
    requires slots { steps_needed_lem pair.now.frame.left pair.now.frame.right ≤ slots_of queue.old }
    requires cells { steps_needed_lem pair.now.frame.left pair.now.frame.right ≤ length cells.old }
    requires room { 4 * pair.now.frame.room ≤ length outputs.old }
    requires going { Going A.model (table_of pair.now.left.now.draft) (table_of pair.now.right.now.draft) pair.now.frame.left pair.now.frame.right pair.now.frame.width (entries_of queue.old) cells.old number symbol }
    ensures going { Going A.model (table_of pair.now.left.now.draft) (table_of pair.now.right.now.draft) pair.now.frame.left pair.now.frame.right pair.now.frame.width (entries_of queue.new) cells.new number (symbol + 1) }
    ensures step { step_at (entries_of queue.new) number ≡ step_at (entries_of queue.old) number }
    ensures taken { queue.new.taken ≡ queue.old.taken }
    ensures slots { slots_of queue.new ≡ slots_of queue.old }
{
    let next = extension(pair, queue.entries(), number, symbol);
    if both_dead(next.left.state, next.right.state) {
        return;
    }
    let Some(visit) = judge(
        &pair.left.draft,
        &pair.right.draft,
        pair.frame,
        queue.entries(),
        cells,
        next,
        outputs,
    ) else {
        return;
    };
    let place = place_of(
        pair.frame.left,
        pair.frame.right,
        next.left.state,
        next.right.state,
        visit,
    );
    if let Ok(made) = queue.push(Step { visit, ..next }) {
        cells[place] = made as u32;
    }
}

// Tries every symbol worth trying behind the text of a step.
pub fn expand<A: Alphabet>(
    pair: &FilterPair<'_, '_, A>,
    queue: &mut Queue<'_, Step>,
    cells: &mut [u32],
    number: usize,
    step: Step,
    outputs: &mut [u32],
)
    requires slots { steps_needed_lem pair.now.frame.left pair.now.frame.right ≤ slots_of queue.old }
    requires cells { steps_needed_lem pair.now.frame.left pair.now.frame.right ≤ length cells.old }
    requires room { 4 * pair.now.frame.room ≤ length outputs.old }
    requires step { step ≡ step_at (entries_of queue.old) number }
    requires going { Going A.model (table_of pair.now.left.now.draft) (table_of pair.now.right.now.draft) pair.now.frame.left pair.now.frame.right pair.now.frame.width (entries_of queue.old) cells.old number 0 }
    ensures turned { Turned A.model (table_of pair.now.left.now.draft) (table_of pair.now.right.now.draft) pair.now.frame.left pair.now.frame.right pair.now.frame.width (entries_of queue.new) cells.new (number + 1) }
    ensures taken { queue.new.taken ≡ queue.old.taken }
    ensures slots { slots_of queue.new ≡ slots_of queue.old }
{
    let left = Standing {
        filter: pair.left,
        state: step.left.state,
    };
    let right = Standing {
        filter: pair.right,
        state: step.right.state,
    };
    let mut from = 0;
    while let Some(symbol) = next_symbol(&left, &right, from) {
        attempt(pair, queue, cells, number, symbol, outputs);
        from = symbol + 1;
    }
}
