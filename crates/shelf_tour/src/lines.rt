// What is printed of a call: what was asked, and what was answered.
use crate::filters::{Filter, name_of};
use crate::subject::{Subject, shown};
use crate::tour::{Call, Lent, Lists, Text};
use alphabet::{Alphabet, Cause};
use answers::{Comparison, Fault};
use filter::Outcome;
use std::alloc::{AllocError, Global};

// A text of the tour.
pub fn text_of<A: Alphabet, S: Subject<A>>(
    heap: Global,
    text: Text,
) -> Result<Vec<u32>, AllocError> {
    match text {
        Text::Empty => Ok(Vec::new(heap)),
        Text::Three => Vec::from_slice(heap, &[10, 12, 10]),
        Text::Foreign => vec![in heap; S::last().saturating_add(1); 1],
    }
}

fn asked_file<A: Alphabet, S: Subject<A>>(
    heap: Global,
    filter: Filter,
    lent: Lent,
) -> Result<String, AllocError> {
    if let Filter::Only(symbol) = filter {
        let symbol = S::show(heap, symbol)?;
        return format!(in heap; "file only {symbol}");
    }
    let name = name_of(filter);
    let steps = lent.steps;
    let symbols = lent.symbols;
    format!(in heap; "file {name}, scratch {steps} {symbols}")
}

// Of the lists, how many outputs and pairs they hold.
fn asked_join(
    heap: Global,
    numbers: (usize, usize),
    lists: Lists,
    lent: Lent,
) -> Result<String, AllocError> {
    let (first, second) = numbers;
    let outputs = lists.outputs;
    let pairs = lists.pairs;
    let steps = lent.steps;
    let symbols = lent.symbols;
    format!(in heap; "join {first} {second}, lists {outputs} {pairs}, scratch {steps} {symbols}")
}

fn asked_compare(
    heap: Global,
    numbers: (usize, usize),
    lent: Lent,
    length: usize,
) -> Result<String, AllocError> {
    let (first, second) = numbers;
    let steps = lent.steps;
    let symbols = lent.symbols;
    format!(in heap; "compare {first} {second}, scratch {steps} {symbols}, witness {length}")
}

fn asked_transduce<A: Alphabet, S: Subject<A>>(
    heap: Global,
    number: usize,
    text: Text,
    length: usize,
) -> Result<String, AllocError> {
    let symbols = text_of::<A, S>(heap, text)?;
    let text = shown::<A, S>(heap, symbols.as_slice())?;
    format!(in heap; "transduce {text} by {number}, output {length}")
}

// What a call asks for.
pub fn asked<A: Alphabet, S: Subject<A>>(heap: Global, call: Call) -> Result<String, AllocError> {
    match call {
        Call::File(filter, lent) => asked_file::<A, S>(heap, filter, lent),
        Call::Join(first, second, lists, lent) => asked_join(heap, (first, second), lists, lent),
        Call::Compare(first, second, lent, length) => {
            asked_compare(heap, (first, second), lent, length)
        }
        Call::Transduce(number, text, length) => {
            asked_transduce::<A, S>(heap, number, text, length)
        }
        Call::ExchangeRule => String::from_str(heap, "exchange rule 1 for a spare one, or back"),
        Call::Miscount => String::from_str(heap, "miscount the outputs, or count them again"),
    }
}

// A cause, behind the number and the place of a fault.
fn with_cause(
    heap: Global,
    number: u8,
    place: usize,
    cause: Option<Cause>,
) -> Result<String, AllocError> {
    match cause {
        Some(cause) => {
            let cause = cause.number();
            format!(in heap; "{number} {place} {cause}")
        }
        None => format!(in heap; "{number} {place}"),
    }
}

// A refusal: number, place and cause, and those of the holding's own fault.
fn refused(heap: Global, fault: Fault) -> Result<String, AllocError> {
    let report = fault.report();
    let outer = with_cause(heap, report.number, report.place, report.cause)?;
    match report.inner {
        Some(code) => {
            let inner = with_cause(heap, code.number, code.place, code.cause)?;
            format!(in heap; "refused {outer}, by {inner}")
        }
        None => format!(in heap; "refused {outer}"),
    }
}

// What filing and joining answer.
pub fn placed(heap: Global, answer: Result<usize, Fault>) -> Result<String, AllocError> {
    match answer {
        Ok(number) => format!(in heap; "held {number}"),
        Err(fault) => refused(heap, fault),
    }
}

// What comparing answers.
pub fn compared<A: Alphabet, S: Subject<A>>(
    heap: Global,
    answer: Result<Comparison, Fault>,
    witness: Vec<u32>,
) -> Result<String, AllocError> {
    match answer {
        Ok(Comparison::Equivalent) => String::from_str(heap, "equivalent"),
        Ok(Comparison::Distinguished(count)) => {
            let mut text = witness;
            text.truncate(count);
            shown::<A, S>(heap, text.as_slice())
        }
        Err(fault) => refused(heap, fault),
    }
}

// What transducing answers.
pub fn transduced<A: Alphabet, S: Subject<A>>(
    heap: Global,
    answer: Result<Outcome, Fault>,
    output: Vec<u32>,
) -> Result<String, AllocError> {
    match answer {
        Ok(Outcome::Written { state, count }) => {
            let mut written = output;
            written.truncate(count);
            let text = shown::<A, S>(heap, written.as_slice())?;
            format!(in heap; "wrote {text} in state {state}")
        }
        Ok(Outcome::Rejected { position }) => format!(in heap; "rejected at {position}"),
        Err(fault) => refused(heap, fault),
    }
}
