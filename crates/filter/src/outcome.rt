// What transducing a text answers.
ghost use Rattle.std.specs.Prelude.{◌≡◌};
ghost use Rattle.filter.specs.declared.outcome.TransduceFault.TheVariants.{Unsound};
ghost use Rattle.filter.specs.Outcomes.{transduce_code};

use table::{FaultCode, TableFault};

// A rejection is an answer and no error, so this is no `Result`.
#[derive(Clone, Copy, Debug, PartialEq)]
pub enum Outcome {
    // The text was accepted in this state, and so many symbols were written.
    Written { state: u16, count: usize },
    // The text was rejected at this position: that of the symbol that no rule holds, or the text's length.
    Rejected { position: usize },
}

// Why nothing was done.
#[derive(Clone, Copy, Debug, PartialEq)]
pub enum TransduceFault {
    // The filter's table is unsound.
    Unsound(TableFault),
    // The text has more than 1,048,576 symbols.
    LongText,
    // The output is shorter than this length, which is needed.
    ShortOutput(usize),
}

impl TransduceFault {
    // The fault as it is reported. A method, since a `From` would not say at a call what it gives.
    pub fn code(self) -> FaultCode
        ensures { result ≡ transduce_code self }
    {
        match self {
            TransduceFault::Unsound(fault) => fault.code(),
            TransduceFault::LongText => FaultCode {
                number: 3,
                place: 1,
                cause: None,
            },
            TransduceFault::ShortOutput(needed) => {
                FaultCode {
                    number: 16,
                    place: needed,
                    cause: None,
                }
            }
        }
    }
}

impl From<TableFault> for TransduceFault {
    ghost from_gives = { λ f r. r ≡ Unsound f };

    fn from(fault: TableFault) -> TransduceFault {
        TransduceFault::Unsound(fault)
    }
}
