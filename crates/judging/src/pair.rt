// Two filters that are compared.
ghost use Rattle.std.specs.Prelude.{◌≡◌, ◌*◌, length};
ghost use Rattle.table.specs.Table.{table_of};
ghost use Rattle.steps.specs.Places.{steps_needed_lem};
ghost use Rattle.judging.specs.Frames.{Framed, room_of};

use crate::frame::{Frame, frame_of};
use alphabet::Alphabet;
use steps::steps_needed;
use table::Filter;

// Two filters with the sizes of their comparison.
#[derive(Drop)]
pub struct FilterPair<'f, 'a, A: Alphabet> {
    pub left: &'f Filter<'a, A>,
    pub right: &'f Filter<'a, A>,
    pub frame: Frame,
    pub ghost framed: { Framed (table_of left.now.draft) (table_of right.now.draft) frame },
}

impl<'f, 'a, A: Alphabet> FilterPair<'f, 'a, A> {
    pub fn new(left: &'f Filter<'a, A>, right: &'f Filter<'a, A>) -> FilterPair<'f, 'a, A>
        ensures left { result.left.now ≡ left.now }
        ensures right { result.right.now ≡ right.now }
        ensures room { result.frame.room ≡ room_of (table_of left.now.draft) (table_of right.now.draft) }
    {
        let frame = frame_of(left, right);
        FilterPair { left, right, frame }
    }

    // How many steps the comparison makes at most.
    pub fn steps(&self) -> usize
        ensures { result ≡ steps_needed_lem (length self.now.left.now.draft.states.now) (length self.now.right.now.draft.states.now) }
    {
        steps_needed(self.frame.left, self.frame.right)
    }

    // How many scratch symbols it needs.
    pub fn symbols(&self) -> usize
        ensures { result ≡ 6 * self.now.frame.room }
    {
        6 * self.frame.room
    }
}
