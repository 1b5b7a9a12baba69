// The faults of a table, each with its place, and with the cause where the alphabet gives one.
ghost use Rattle.std.specs.Prelude.{◌≡◌, Some};
ghost use Rattle.table.specs.Faults.{code_of, code_text};

use alphabet::Cause;
use std::fmt;

// In the order in which they are looked for. States, rules and outputs are numbered from 0 within their lists.
#[derive(Clone, Copy, Debug, PartialEq)]
pub enum TableFault {
    // The number of states, rules or outputs is outside the limits.
    Limits,
    // The mark is above 1, there are more than 32 final outputs, or there are some though the state rejects.
    BadState(usize),
    // The rule names a state that does not exist.
    MissingState(usize),
    // The rule's guard is unsound.
    UnsoundGuard(usize, Cause),
    // The rule has more than 32 outputs.
    LongOutput(usize),
    // The output list is not as long as the counts ask for.
    OutputCount,
    // The final output is sound, but no constant.
    NotConstant(usize),
    // The output is unsound or does not suit the guard of its rule.
    UnsoundOutput(usize, Cause),
    // The rule is the first that shares a symbol with an earlier rule of its state.
    Overlap(usize),
}

// A fault as it is reported: its number, its place, and the cause where there is one.
#[derive(Clone, Copy, Debug, PartialEq)]
pub struct FaultCode {
    pub number: u8,
    pub place: usize,
    pub cause: Option<Cause>,
}

impl TableFault {
    // The fault as it is reported. A method, since a `From` would not say at a call what it gives.
    pub fn code(self) -> FaultCode
        ensures { result ≡ code_of self }
    {
        let (number, place, cause) = match self {
            TableFault::Limits => (3, 0, None),
            TableFault::BadState(state) => (4, state, None),
            TableFault::MissingState(rule) => (5, rule, None),
            TableFault::UnsoundGuard(rule, cause) => (6, rule, Some(cause)),
            TableFault::LongOutput(rule) => (7, rule, None),
            TableFault::OutputCount => (8, 0, None),
            TableFault::NotConstant(output) => (9, output, None),
            TableFault::UnsoundOutput(output, cause) => (10, output, Some(cause)),
            TableFault::Overlap(rule) => (11, rule, None),
        };
        FaultCode {
            number,
            place,
            cause,
        }
    }
}

// The number and the place.
impl fmt::Display for FaultCode {
    ghost output = { λ c. Some (code_text c) };

    fn fmt<W: fmt::Write>(&self, f: &mut fmt::Formatter<W>) -> fmt::Result {
        let number = self.number;
        let place = self.place;
        write!(f, "{number} {place}")
    }
}
