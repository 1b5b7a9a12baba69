// The sizes of a comparison.
ghost use Rattle.table.specs.Table.{table_of};
ghost use Rattle.judging.specs.Frames.{Framed, width_of};
ghost use Rattle.std.specs.Prelude.{◌≡◌};

use alphabet::Alphabet;
use replay::longest;
use steps::steps_needed;
use table::{Filter, final_total};

// For filters with `left` and `right` states: where the outputs of their rules begin, the longest output of either, and
// how many symbols one of them may write for a text.
#[derive(Clone, Copy)]
pub struct Frame {
    pub left: usize,
    pub right: usize,
    pub left_first: usize,
    pub right_first: usize,
    pub width: usize,
    pub room: usize,
}

// The frame of two filters.
pub fn frame_of<A: Alphabet>(left: &Filter<'_, A>, right: &Filter<'_, A>) -> Frame
    ensures framed { Framed (table_of left.now.draft) (table_of right.now.draft) result }
    ensures width { result.width ≡ width_of (table_of left.now.draft) (table_of right.now.draft) }
{
    let p = left.draft.states.len();
    let q = right.draft.states.len();
    let width = longest(&left.draft).max(longest(&right.draft)).max(1);
    Frame {
        left: p,
        right: q,
        left_first: final_total(left.draft.states),
        right_first: final_total(right.draft.states),
        width,
        room: (steps_needed(p, q) + 1) * width,
    }
}
