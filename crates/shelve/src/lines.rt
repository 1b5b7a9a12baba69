// The lines that are printed: one for each body, then one for each pair of holdings.
use codec::{GuardRecord, Record, Stored};
use marks::{MarkSet, MarkTerm, Marks, letter};
use ranges::{Bytes, CodePoints, Range, RangeTerm};
use shelving::{Pair, Shelved};
use std::alloc::{AllocError, Global};

// An alphabet whose stored shelves are filed and printed.
pub trait Printed: Stored
where
    Self::Guard: GuardRecord,
    Self::Term: Record,
{
    // A guard and a term to fill lists with before a file is decoded into them; a range of zeros and a shift by none for
    // both alphabets of ranges.
    fn spare() -> (Self::Guard, Self::Term);

    // Prints a symbol. Each alphabet has a text of its own: one function for both widths would be no shorter.
    fn push_symbol(line: &mut String, symbol: u32) -> Result<(), AllocError>;
}

const SPARE_RANGE: (Range, RangeTerm) = (Range { low: 0, high: 0 }, RangeTerm::Shift(0));

// Two hexadecimal digits.
impl Printed for Bytes {
    fn spare() -> (Range, RangeTerm) {
        SPARE_RANGE
    }

    fn push_symbol(line: &mut String, symbol: u32) -> Result<(), AllocError> {
        write!(line, "{symbol:02X}")
    }
}

// Six hexadecimal digits.
impl Printed for CodePoints {
    fn spare() -> (Range, RangeTerm) {
        SPARE_RANGE
    }

    fn push_symbol(line: &mut String, symbol: u32) -> Result<(), AllocError> {
        write!(line, "{symbol:06X}")
    }
}

// The characters of marks.
impl Printed for Marks {
    fn spare() -> (MarkSet, MarkTerm) {
        (MarkSet { bits: 1 }, MarkTerm::Constant(0))
    }

    fn push_symbol(line: &mut String, symbol: u32) -> Result<(), AllocError> {
        line.push(letter(symbol).unwrap_or(b'?') as char)
    }
}

// A text: its symbols one behind another, or a dash where it is empty.
fn shown<A: Printed>(heap: Global, text: &[u32]) -> Result<String, AllocError>
where
    A::Guard: GuardRecord,
    A::Term: Record,
{
    if text.is_empty() {
        return String::from_str(heap, "-");
    }
    let mut line = String::new(heap);
    for symbol in text {
        A::push_symbol(&mut line, *symbol)?;
    }
    Ok(line)
}

// Prints all lines.
pub fn print_all<A: Printed>(rt: &HostRuntime, shelved: &Shelved) -> anyhow::Result<()>
where
    A::Guard: GuardRecord,
    A::Term: Record,
{
    for (i, verdict) in shelved.verdicts.as_slice().iter().enumerate() {
        let body = i + 1;
        println!(rt; "{body} {verdict}")?;
    }
    for pair in shelved.pairs.as_slice() {
        let Pair { first, second, .. } = pair.pair;
        let text = shown::<A>(rt.alloc(), pair.text.as_slice())?;
        println!(rt; "{first} {second} {text}")?;
    }
    Ok(())
}
