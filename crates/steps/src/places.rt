// Places: one for each pair of states and visit, with a cell that has the number of the step there.
ghost use Rattle.std.specs.Prelude.{◌≡◌, ℕ, ◌+◌, ◌*◌, ◌<◌, ◌≤◌, length};
ghost use Rattle.steps.specs.Places.{steps_needed_lem, number_of, place_of, Proper, Placed, Found};

use crate::step::{Step, Visit};

// How many steps a comparison of filters with so many states makes at most.
pub fn steps_needed(left: usize, right: usize) -> usize
    requires left { left ≤ 64 }
    requires right { right ≤ 64 }
    ensures { result ≡ steps_needed_lem left right }
{
    2 * (left * right) + left + right
}

// The number of a state; none counts as one more state.
fn number(count: usize, state: Option<u16>) -> usize
    ensures { result ≡ number_of count state }
{
    state.map_or(count, usize::from)
}

// The place of a pair of states, of filters with p and q states, at the first or the second visit.
pub fn place_of(p: usize, q: usize, left: Option<u16>, right: Option<u16>, visit: Visit) -> usize
    requires left { p ≤ 64 }
    requires right { q ≤ 64 }
    ensures { result ≡ place_of p q left right visit }
{
    let row = number(p, left);
    let column = number(q, right);
    match visit {
        Visit::First => row * (q + 1) + column,
        Visit::Second => p * q + p + q + (row * q + column),
    }
}

// The step with that pair of states at that visit, or none. A cell is believed only if the step that it names has the
// place, so that no cell need be cleared.
pub fn find(
    steps: &[Step],
    cells: &[u32],
    p: usize,
    q: usize,
    left: Option<u16>,
    right: Option<u16>,
    visit: Visit,
) -> Option<usize>
    requires left { p ≤ 64 }
    requires right { q ≤ 64 }
    requires placed { Placed p q steps.now cells.now }
    requires within { place_of p q left right visit < length cells.now }
    ensures { Found p q steps.now (place_of p q left right visit) result }
{
    let place = place_of(p, q, left, right, visit);
    let number = cells[place] as usize;
    let step = steps.get(number)?;
    (place_of(p, q, step.left.state, step.right.state, step.visit) == place).then_some(number)
}
