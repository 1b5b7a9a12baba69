// Whether a text is worth a step.
ghost use Rattle.std.specs.Prelude.{◌≡◌, ◌+◌, ◌*◌, ◌<◌, ◌≤◌, Bool, true, false, length, Decides};
ghost use Rattle.table.specs.Table.{table_of};
ghost use Rattle.steps.specs.Places.{steps_needed_lem};
ghost use Rattle.replay.specs.Replays.{lag_by, Tracks, Attached};
ghost use Rattle.judging.specs.Frames.{Framed, both_live_lem, both_dead_lem};
ghost use Rattle.judging.specs.Kept.{Going, Extends, Judged};

use crate::frame::Frame;
use alphabet::Alphabet;
use replay::same_lags;
use steps::{Step, Visit, find};
use table::Draft;

// Whether the two filters have the same lag after the texts of two steps. The four outputs stand one behind another.
fn lags_alike<A: Alphabet>(
    left: &Draft<'_, A>,
    right: &Draft<'_, A>,
    room: usize,
    steps: &[Step],
    first: Step,
    second: Step,
    outputs: &mut [u32],
) -> bool
    requires tracks { Tracks A.model (table_of left.now) (table_of right.now) steps.now }
    requires first { Attached A.model (table_of left.now) (table_of right.now) steps.now first }
    requires second { Attached A.model (table_of left.now) (table_of right.now) steps.now second }
    requires short { (first.left.total ≤ room) × (first.right.total ≤ room) × (second.left.total ≤ room) × (second.right.total ≤ room) }
    requires room { 4 * room ≤ length outputs.old }
    ensures { Decides result (lag_by A.model (table_of left.now) (table_of right.now) steps.now first ≡ lag_by A.model (table_of left.now) (table_of right.now) steps.now second) }
{
    let (x, rest) = outputs.split_at_mut(room);
    let (y, rest) = rest.split_at_mut(room);
    let (z, w) = rest.split_at_mut(room);
    same_lags(left, right, steps, first, second, x, y, z, w)
}

// Whether both sides have a state. It and `both_dead` of the crate above name what their contracts ask.
fn both_live(left: Option<u16>, right: Option<u16>) -> bool
    ensures { result ≡ both_live_lem left right }
{
    left.is_some() && right.is_some()
}

// Whether the text of a step, which goes on from one of the steps, is worth a step: at its pair's first visit; or, if
// both sides have a state, at the second, where the lag differs from the first one's. Answers none where it is covered,
// else which visit it is.
// It takes drafts and no `FilterPair`, since it asks for no sound tables.
pub fn judge<A: Alphabet>(
    left: &Draft<'_, A>,
    right: &Draft<'_, A>,
    frame: Frame,
    steps: &[Step],
    cells: &[u32],
    next: Step,
    outputs: &mut [u32],
) -> Option<Visit>
    requires framed { Framed (table_of left.now) (table_of right.now) frame }
    requires going { Going A.model (table_of left.now) (table_of right.now) frame.left frame.right frame.width steps.now cells.now next.parent next.symbol }
    requires extends { Extends A.model (table_of left.now) (table_of right.now) frame.left frame.right frame.width steps.now next }
    requires alive { both_dead_lem next.left.state next.right.state ≡ false }
    requires cells { steps_needed_lem frame.left frame.right ≤ length cells.now }
    requires room { 4 * frame.room ≤ length outputs.old }
    ensures { Judged A.model (table_of left.now) (table_of right.now) frame.left frame.right frame.width steps.now next result }
{
    let Frame {
        left: p,
        right: q,
        room,
        ..
    } = frame;
    let Some(first) = find(
        steps,
        cells,
        p,
        q,
        next.left.state,
        next.right.state,
        Visit::First,
    ) else {
        return Some(Visit::First);
    };
    if !both_live(next.left.state, next.right.state) {
        return None;
    }
    if find(
        steps,
        cells,
        p,
        q,
        next.left.state,
        next.right.state,
        Visit::Second,
    )
    .is_some()
    {
        return None;
    }
    if lags_alike(left, right, room, steps, steps[first], next, outputs) {
        return None;
    }
    Some(Visit::Second)
}
