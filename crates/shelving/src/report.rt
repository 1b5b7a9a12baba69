// What became of each body, and which text distinguishes each pair of holdings.
ghost use Rattle.std.specs.Prelude.{◌≡◌, Some};
ghost use Rattle.shelving.specs.Verdicts.{verdict_of_lem, verdict_text};

use answers::Fault;
use std::fmt;

// What became of a body.
#[derive(Clone, Copy)]
pub enum Verdict {
    // It was filed under this number.
    Filed(usize),
    // It is a double of this holding.
    Twin(usize),
    // It was refused with this fault.
    Refused(Fault),
}

// What became of the body, and the number of the holding or of the fault.
impl fmt::Display for Verdict {
    ghost output = { λ v. Some (verdict_text v) };

    fn fmt<W: fmt::Write>(&self, f: &mut fmt::Formatter<W>) -> fmt::Result {
        match *self {
            Verdict::Filed(number) => write!(f, "filed {number}"),
            Verdict::Twin(number) => write!(f, "twin {number}"),
            Verdict::Refused(fault) => {
                let number = fault.report().number;
                write!(f, "refused {number}")
            }
        }
    }
}

// Two holdings, and the length of the earliest text that distinguishes them.
#[derive(Clone, Copy)]
pub struct Pair {
    pub first: usize,
    pub second: usize,
    pub length: usize,
}

// A pair with that text.
#[derive(Drop)]
pub struct ToldPair {
    pub pair: Pair,
    pub text: Vec<u32>,
}

// The verdict that an answer of filing is. A function, since a `From` of a whole `Result` would read no plainer.
pub fn verdict_of(answer: Result<usize, Fault>) -> Verdict
    ensures { result ≡ verdict_of_lem answer }
{
    match answer {
        Ok(number) => Verdict::Filed(number),
        Err(Fault::Double(number)) => Verdict::Twin(number),
        Err(fault) => Verdict::Refused(fault),
    }
}
