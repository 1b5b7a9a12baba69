// A step: a text, as an earlier step's text with one symbol more, and where the two filters stand after it.
ghost use Rattle.std.specs.Prelude.{◌≡◌};
ghost use Rattle.steps.specs.Steps.{side_of};

// One filter after a text: its state, or none where it has no move; where the outputs of its last rule stand in its
// output list; and how many symbols it has written in all.
#[derive(Clone, Copy, Default)]
pub struct Side {
    pub state: Option<u16>,
    pub from: u16,
    pub to: u16,
    pub total: u32,
}

// Which visit to a pair of states; there are two at most.
#[derive(Clone, Copy, Default)]
pub enum Visit {
    #[default]
    First,
    Second,
}

// The first step stands for the empty text.
#[derive(Clone, Copy, Default)]
pub struct Step {
    pub parent: u16,
    pub symbol: u32,
    pub left: Side,
    pub right: Side,
    pub visit: Visit,
}

// Which of the two filters.
#[derive(Clone, Copy)]
pub enum Hand {
    Left,
    Right,
}

// Where that filter stands after a step.
pub fn side_of(step: Step, hand: Hand) -> Side
    ensures { result ≡ side_of hand step }
{
    match hand {
        Hand::Left => step.left,
        Hand::Right => step.right,
    }
}
