// Comparing what two filters write for the texts of steps.
ghost use Rattle.std.specs.Prelude.{◌≡◌, ◌≤◌, length, Decides};
ghost use Rattle.table.specs.Table.{table_of};
ghost use Rattle.replay.specs.Replays.{Tracks, Attached, Agrees, RoomFor, lag_by};

use crate::lag::same_lag;
use crate::written::{output, whole};
use alphabet::Alphabet;
use steps::{Hand, Step};
use table::{Draft, Filter};

// Whether the two filters write the same for the text of a step, final outputs included, or both reject it.
pub fn agree<A: Alphabet>(
    left: &Filter<'_, A>,
    right: &Filter<'_, A>,
    steps: &[Step],
    step: Step,
    x: &mut [u32],
    y: &mut [u32],
) -> bool
    requires tracks { Tracks A.model (table_of left.now.draft) (table_of right.now.draft) steps.now }
    requires attached { Attached A.model (table_of left.now.draft) (table_of right.now.draft) steps.now step }
    requires rooml { RoomFor A.model (table_of left.now.draft) step.left (length x.old) }
    requires roomr { RoomFor A.model (table_of right.now.draft) step.right (length y.old) }
    ensures { Decides result (Agrees A.model (table_of left.now.draft) (table_of right.now.draft) steps.now step) }
{
    let first = whole(left, Hand::Left, steps, step, x);
    let second = whole(right, Hand::Right, steps, step, y);
    match (first, second) {
        (Some(n), Some(k)) => x[..n] == y[..k],
        (None, None) => true,
        _ => false,
    }
}

// Whether the two filters have the same lag after the texts of two steps.
pub fn same_lags<A: Alphabet>(
    left: &Draft<'_, A>,
    right: &Draft<'_, A>,
    steps: &[Step],
    first: Step,
    second: Step,
    x: &mut [u32],
    y: &mut [u32],
    z: &mut [u32],
    w: &mut [u32],
) -> bool
    requires tracks { Tracks A.model (table_of left.now) (table_of right.now) steps.now }
    requires first { Attached A.model (table_of left.now) (table_of right.now) steps.now first }
    requires second { Attached A.model (table_of left.now) (table_of right.now) steps.now second }
    requires rooml { first.left.total ≤ length x.old }
    requires roomr { first.right.total ≤ length y.old }
    requires moreroom { second.left.total ≤ length z.old }
    requires morerooms { second.right.total ≤ length w.old }
    ensures { Decides result (lag_by A.model (table_of left.now) (table_of right.now) steps.now first ≡ lag_by A.model (table_of left.now) (table_of right.now) steps.now second) }
{
    let i = output(left, Hand::Left, steps, first, x);
    let j = output(right, Hand::Right, steps, first, y);
    let k = output(left, Hand::Left, steps, second, z);
    let l = output(right, Hand::Right, steps, second, w);
    same_lag(&x[..i], &y[..j], &z[..k], &w[..l])
}
