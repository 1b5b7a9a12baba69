// Transducing: a text goes in, and what the filter writes for it goes to the output.
ghost use Rattle.std.specs.Prelude.{◌≡◌, length, Ok};
ghost use Rattle.table.specs.Table.{table_of};
ghost use Rattle.table.specs.Check.{checked};
ghost use Rattle.filter.specs.Agrees.{Agrees};
ghost use Rattle.filter.specs.Machines.{machine_of};
ghost use Rattle.filter.specs.Outcomes.{answer_for, ended, output_after};
ghost use Rattle.filter.specs.Promises.{after_check, Transduces};

use crate::outcome::{Outcome, TransduceFault};
use crate::walk::{finish, walk};
use alphabet::Alphabet;
use table::{Draft, Filter};

// The most symbols of a text.
pub const MOST_SYMBOLS: usize = 1048576;

// Transduces a text by a filter. It measures first, so that a rejection or a refusal leaves the output as it was.
pub fn transduce_sound<A: Alphabet>(
    filter: &Filter<'_, A>,
    text: &[u32],
    out: &mut [u32],
) -> Result<Outcome, TransduceFault>
    ensures answer { result ≡ answer_for (machine_of A.model (table_of filter.now.draft)) text.now (length out.old) }
    ensures output { out.new ≡ output_after result (ended (machine_of A.model (table_of filter.now.draft)) text.now) out.old }
{
    if text.len() > MOST_SYMBOLS {
        return Err(TransduceFault::LongText);
    }
    let (state, count) = match walk(filter, 0, text, &mut []) {
        Ok(end) => end,
        Err(position) => return Ok(Outcome::Rejected { position }),
    };
    let Some(needed) = finish(filter, state, &mut [], count) else {
        return Ok(Outcome::Rejected {
            position: text.len(),
        });
    };
    if needed > out.len() {
        return Err(TransduceFault::ShortOutput(needed));
    }
    let _ = walk(filter, 0, text, out);
    let _ = finish(filter, state, out, count);
    Ok(Outcome::Written {
        state,
        count: needed,
    })
}

// Transduces a text by a draft, of which nothing is known: its table is checked first.
pub fn transduce<A: Alphabet>(
    draft: &Draft<'_, A>,
    text: &[u32],
    out: &mut [u32],
) -> Result<Outcome, TransduceFault>
    ensures answer { result ≡ after_check (checked A.model (table_of draft.now)) (answer_for (machine_of A.model (table_of draft.now)) text.now (length out.old)) }
    ensures output { out.new ≡ output_after result (ended (machine_of A.model (table_of draft.now)) text.now) out.old }
    ensures agrees { checked A.model (table_of draft.now) ≡ Ok tt → Agrees A.model (table_of draft.now) }
    ensures means { Transduces A.model (table_of draft.now) text.now out.old out.new result }
{
    let filter = Filter::new(*draft)?;
    transduce_sound(&filter, text, out)
}
