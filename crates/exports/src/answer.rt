// What an exported call answers.
ghost use Rattle.std.specs.Prelude.{◌≡◌, length};
ghost use Rattle.steps.specs.Steps.{written_to};
ghost use Rattle.exports.specs.Answers.{answer, cause_of_lem, refusal, check_answer_lem, transduce_answer_lem, tell_answer, compare_answer_lem, witness_after};

use alphabet::Cause;
use comparing::CompareFault;
use filter::{Outcome, TransduceFault};
use table::{FaultCode, TableFault};

// What an answer says. The numbers are those that a caller in another language reads.
#[derive(Clone, Copy, PartialEq)]
pub enum Kind {
    // The table is sound, the text is written, the filters are equivalent or joined.
    Done = 0,
    // The text is rejected, the filters are distinguished, or the joined one is over a limit.
    Otherwise = 1,
    // The table, or the first of two, is refused with a fault's number, its place and its cause or 0.
    Refused = 2,
    // There is not enough memory.
    NoMemory = 3,
    // The second of two tables is refused.
    SecondRefused = 4,
    // The witness, or a list, is too short.
    TooShort = 5,
}

// Four numbers and no enum, since C callers read them: the kind says what the other three are, call by call.
#[repr(C)]
#[derive(Clone, Copy)]
pub struct Answer {
    pub kind: u32,
    pub first: usize,
    pub second: usize,
    pub third: usize,
}

// There is not enough memory.
pub const NO_MEMORY: Answer = Answer {
    kind: Kind::NoMemory as u32,
    first: 0,
    second: 0,
    third: 0,
};

pub fn answer_of(kind: u32, first: usize, second: usize, third: usize) -> Answer
    ensures { result ≡ answer kind first second third }
{
    Answer {
        kind,
        first,
        second,
        third,
    }
}

fn cause_of(cause: Option<Cause>) -> usize
    ensures { result ≡ cause_of_lem cause }
{
    cause.map_or(0, |cause| cause.number() as usize)
}

// A refusal of this kind.
pub fn refused(kind: u32, code: FaultCode) -> Answer
    ensures { result ≡ refusal kind code }
{
    answer_of(kind, code.number as usize, code.place, cause_of(code.cause))
}

pub fn check_answer(outcome: Result<(), TableFault>) -> Answer
    ensures { result ≡ check_answer_lem outcome }
{
    match outcome {
        Ok(()) => answer_of(Kind::Done as u32, 0, 0, 0),
        Err(fault) => refused(Kind::Refused as u32, fault.code()),
    }
}

pub fn transduce_answer(outcome: Result<Outcome, TransduceFault>) -> Answer
    ensures { result ≡ transduce_answer_lem outcome }
{
    match outcome {
        Ok(Outcome::Written { state, count }) => answer_of(
            Kind::Done as u32,
            state as usize,
            count,
            0,
        ),
        Ok(Outcome::Rejected { position }) => answer_of(Kind::Otherwise as u32, position, 0, 0),
        Err(fault) => refused(Kind::Refused as u32, fault.code()),
    }
}

// Writes a text to the front of the witness, if it has room.
pub fn tell(text: &[u32], witness: &mut [u32]) -> Answer
    ensures answer { result ≡ tell_answer text.now witness.old }
    ensures witness { witness.new ≡ written_to text.now witness.old }
{
    let count = text.len();
    if count > witness.len() {
        return answer_of(Kind::TooShort as u32, count, 0, 0);
    }
    witness[0..count].copy_from_slice(text);
    answer_of(Kind::Otherwise as u32, count, 0, 0)
}

// The answer to a comparison, with a distinguishing text written to the witness.
pub fn compare_answer(
    outcome: Result<Option<Vec<u32>>, CompareFault>,
    witness: &mut [u32],
) -> Answer
    ensures answer { result ≡ compare_answer_lem outcome witness.old }
    ensures witness { witness.new ≡ witness_after outcome witness.old }
{
    match outcome {
        Ok(None) => answer_of(Kind::Done as u32, 0, 0, 0),
        Ok(Some(text)) => tell(text.as_slice(), witness),
        Err(CompareFault::First(fault)) => refused(Kind::Refused as u32, fault.code()),
        Err(CompareFault::Second(fault)) => refused(Kind::SecondRefused as u32, fault.code()),
        Err(CompareFault::NoMemory) => NO_MEMORY,
    }
}
