// Telling two sound filters apart, by a text in the witness.
#![tactic(auto)]

ghost use Rattle.std.specs.Prelude.{length};
ghost use Rattle.table.specs.Table.{table_of};
ghost use Rattle.shelf_law.specs.Scratch.{scratch_of};
ghost use Rattle.shelf_law.specs.Comparing.{Compared};

use alphabet::Alphabet;
use answers::{Comparison, Fault};
use equivalence::compare::compare;
use judging::FilterPair;
use placing::scratch::is_short;
use queue::Queue;
use steps::{Step, write_text};
use table::Filter;

// Compares two sound filters, the second of which is the holding of this number.
pub fn distinguish<A: Alphabet>(
    left: &Filter<'_, A>,
    right: &Filter<'_, A>,
    number: usize,
    steps: &mut [Step],
    symbols: &mut [u32],
    witness: &mut [u32],
) -> Result<Comparison, Fault>
    ensures { Compared A.model (scratch_of (length steps.old) (length symbols.old)) (table_of left.now.draft) (table_of right.now.draft) number witness.old result witness.new }
{
    if is_short(left, right, steps.len(), symbols.len()) {
        return Err(Fault::ShortScratch(number));
    }
    let pair = FilterPair::new(left, right);
    let needed = pair.steps();
    if witness.len() < needed {
        return Err(Fault::TooShort(needed));
    }
    let mut queue = Queue::new(steps);
    // this and the last refusal cannot come behind the two tests; a `map_err` would only hide that from the proof
    let Ok(answer) = compare(left, right, &mut queue, symbols) else {
        return Err(Fault::ShortScratch(number));
    };
    let Some(step) = answer else {
        return Ok(Comparison::Equivalent);
    };
    let Some(count) = write_text(queue.entries(), step, witness) else {
        return Err(Fault::TooShort(needed));
    };
    Ok(Comparison::Distinguished(count))
}
