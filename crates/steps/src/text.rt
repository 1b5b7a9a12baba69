// Writing out the text of a step.
ghost use Rattle.std.specs.Prelude.{◌≡◌, ℕ, ◌+◌, ◌-◌, ◌<◌, ◌≤◌, ◌∷◌, ◌++◌, length, drop};
ghost use Rattle.steps.specs.Steps.{above_of, text as text_of, length_in, written_to};

use crate::step::Step;

// That a step is one of the steps is asked in three private functions here: a type for that would be longer than they are.
// The step whose text a step's text goes on from: its parent, or the first step where the parent is not an earlier one.
fn step_above(steps: &[Step], step: usize) -> usize
    requires within { step < length steps.now }
    ensures answer { result ≡ above_of steps.now step }
    ensures earlier { 0 < step → result < step }
{
    let parent = steps[step].parent as usize;
    if parent < step { parent } else { 0 }
}

// How long the text of a step is: no longer than its number.
fn text_length(steps: &[Step], step: usize) -> usize
    requires within { step < length steps.now }
    ensures { result ≡ length (text_of steps.now step) }
{
    // A `while`, since only the way up tells how many steps are on it.
    let mut count = 0;
    let mut at = step;
    while at > 0 {
        count += 1;
        at = step_above(steps, at);
    }
    count
}

// Writes the text of a step to the front of a list that has room for it, the last symbol first. The count is the text's
// length, which the caller has found already.
fn fill_text(steps: &[Step], step: usize, count: usize, witness: &mut [u32])
    requires within { step < length steps.now }
    requires count { count ≡ length (text_of steps.now step) }
    requires room { count ≤ length witness.old }
    ensures { witness.new ≡ text_of steps.now step ++ drop count witness.old }
{
    let mut at = step;
    for left in (0..count).rev() {
        witness[left] = steps[at].symbol;
        at = step_above(steps, at);
    }
}

// Writes the text of a step to the front of the witness, leaves the rest, and answers the text's length; or none, and
// the witness as it was, where it is too short. Any steps will do: a parent that is not an earlier step, and a number
// that no step has, stand for the empty text.
pub fn write_text(steps: &[Step], step: usize, witness: &mut [u32]) -> Option<usize>
    ensures answer { result ≡ length_in (text_of steps.now step) (length witness.old) }
    ensures witness { witness.new ≡ written_to (text_of steps.now step) witness.old }
{
    if step >= steps.len() {
        return Some(0);
    }
    let count = text_length(steps, step);
    if count > witness.len() {
        return None;
    }
    fill_text(steps, step, count, witness);
    Some(count)
}
