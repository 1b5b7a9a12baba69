// What differs from one alphabet to another: guards, terms, and how symbols are shown.
use alphabet::Alphabet;
use mark_laws::{MarkSet, MarkTerm};
use marks::{Marks, letter};
use ranges::{BYTES, Bytes, CODE_POINTS, CodePoints, Range, RangeTerm};
use std::alloc::{AllocError, Global};

// One symbol that a rule writes: the symbol read, the one that another term gives for it, or always the same.
#[derive(Clone, Copy)]
pub enum Output {
    Same,
    There,
    Back,
    Symbol(u32),
}

pub trait Subject<A: Alphabet> {
    fn name() -> &'static str;

    // The last symbol.
    fn last() -> u32;

    // The symbols from one to another.
    fn guard(low: u32, high: u32) -> A::Guard;

    fn term(output: Output) -> A::Term;

    // The last symbol that there is a way to, and the first that there is a way back from.
    fn last_there() -> u32;

    fn first_back() -> u32;

    fn show(heap: Global, symbol: u32) -> Result<String, AllocError>;
}

pub struct ByteSubject {}

pub struct CodePointSubject {}

pub struct MarkSubject {}

fn range_term(output: Output) -> RangeTerm {
    match output {
        Output::Same => RangeTerm::Shift(0),
        Output::There => RangeTerm::Shift(1),
        Output::Back => RangeTerm::Shift(-1),
        Output::Symbol(symbol) => RangeTerm::Constant(symbol),
    }
}

impl Subject<Bytes> for ByteSubject {
    fn name() -> &'static str {
        "bytes"
    }

    fn last() -> u32 {
        BYTES - 1
    }

    fn guard(low: u32, high: u32) -> Range {
        Range { low, high }
    }

    fn term(output: Output) -> RangeTerm {
        range_term(output)
    }

    fn last_there() -> u32 {
        BYTES - 2
    }

    fn first_back() -> u32 {
        1
    }

    fn show(heap: Global, symbol: u32) -> Result<String, AllocError> {
        format!(in heap; "{symbol:02X}")
    }
}

impl Subject<CodePoints> for CodePointSubject {
    fn name() -> &'static str {
        "code points"
    }

    fn last() -> u32 {
        CODE_POINTS - 1
    }

    fn guard(low: u32, high: u32) -> Range {
        Range { low, high }
    }

    fn term(output: Output) -> RangeTerm {
        range_term(output)
    }

    fn last_there() -> u32 {
        CODE_POINTS - 2
    }

    fn first_back() -> u32 {
        1
    }

    fn show(heap: Global, symbol: u32) -> Result<String, AllocError> {
        format!(in heap; "{symbol:06X}")
    }
}

impl Subject<Marks> for MarkSubject {
    fn name() -> &'static str {
        "marks"
    }

    fn last() -> u32 {
        marks::SIZE - 1
    }

    // A number from 64 on has no bit.
    fn guard(low: u32, high: u32) -> MarkSet {
        let mut bits: u64 = 0;
        for mark in 0..64u32 {
            if low <= mark && mark <= high {
                bits |= 1 << mark;
            }
        }
        MarkSet { bits }
    }

    fn term(output: Output) -> MarkTerm {
        match output {
            Output::Same => MarkTerm::Turn {
                factor: 1,
                offset: 0,
            },
            Output::There => MarkTerm::Turn {
                factor: 2,
                offset: 1,
            },
            Output::Back => MarkTerm::Turn {
                factor: 19,
                offset: 18,
            },
            Output::Symbol(mark) => MarkTerm::Constant(mark),
        }
    }

    fn last_there() -> u32 {
        marks::SIZE - 1
    }

    fn first_back() -> u32 {
        0
    }

    fn show(heap: Global, symbol: u32) -> Result<String, AllocError> {
        let mut shown = String::new(heap);
        match letter(symbol) {
            Some(byte) => shown.push(byte as char)?,
            None => shown.push('?')?,
        }
        Ok(shown)
    }
}

// A text as it is shown: `-` where it is empty.
pub fn shown<A: Alphabet, S: Subject<A>>(heap: Global, text: &[u32]) -> Result<String, AllocError> {
    if text.is_empty() {
        return String::from_str(heap, "-");
    }
    let mut line = String::new(heap);
    for symbol in text {
        let part = S::show(heap, *symbol)?;
        line.push_str(part.as_str())?;
    }
    Ok(line)
}
