// Cleaning one note with one filter: the output is as long as it has to be.
#![tactic(auto)]

ghost use Rattle.std.specs.Prelude.{◌≡◌};
ghost use Rattle.table.specs.Table.{table_of};
ghost use Rattle.cleaning.specs.declared.CleanFault.TheVariants.{Refused, NoMemory};
ghost use Rattle.cleaning.specs.Cleans.{Cleans};

use alphabet::Alphabet;
use filter::{Outcome, TransduceFault, transduce};
use std::alloc::{AllocError, Global};
use table::Draft;

// Why a note is not cleaned.
#[derive(Drop)]
pub enum CleanFault {
    // The filter refuses.
    Refused(TransduceFault),
    // There is not enough memory for the output.
    NoMemory,
}

impl From<TransduceFault> for CleanFault {
    ghost from_gives = { λ f r. r ≡ Refused f };

    fn from(fault: TransduceFault) -> CleanFault {
        CleanFault::Refused(fault)
    }
}

impl From<AllocError> for CleanFault {
    ghost from_gives = { λ _ r. r ≡ NoMemory };

    fn from(_fault: AllocError) -> CleanFault {
        CleanFault::NoMemory
    }
}

// Transduces a text into an output of its own. Measuring with no output at all tells how long that has to be.
pub fn clean<A: Alphabet>(
    heap: Global,
    draft: &Draft<'_, A>,
    text: &[u32],
) -> Result<(Outcome, Vec<u32>), CleanFault>
    ensures { Cleans A.model (table_of draft.now) text.now result }
{
    match transduce(draft, text, &mut []) {
        Ok(outcome) => Ok((outcome, Vec::new(heap))),
        Err(TransduceFault::ShortOutput(needed)) => {
            let mut out = vec![in heap; 0u32; needed]?;
            let outcome = transduce(draft, text, out.as_mut_slice())?;
            Ok((outcome, out))
        }
        Err(fault) => Err(fault.into()),
    }
}
