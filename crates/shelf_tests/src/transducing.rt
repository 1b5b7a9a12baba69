// Transducing by a holding: what is written, where a text is rejected, and what is refused.
use crate::byte_calls::{file, shelf_of, transduce};
use crate::memory::filled;
use crate::samples;
use crate::samples::ByteMemory;
use answers::Fault;
use builtin::bytes::escape;
use filter::Outcome;
use std::alloc::Global;
use std::process::Abort;
use std::test::Fail;
use table::State;

// Escaping, the letter a alone, and the same in two states.
fn three(rt: &impl Abort, heap: Global) -> Result<ByteMemory, Fail> {
    let rejecting = [State { mark: 0, finals: 0 }];
    let rules = [samples::rule(0x61, 0x61)];
    let rejects = samples::bytes(&rejecting, &rules, &[samples::COPY]);
    let mut memory = shelf_of(rt, heap, &[escape(), samples::delayed_letter()])?;
    assert_eq!(rt; file(rt, heap, &mut memory, &rejects)?, Ok(3));
    Ok(memory)
}

// Transducing gives this outcome, and writes this.
fn gives(
    rt: &impl Abort,
    heap: Global,
    number: usize,
    text: &[u32],
    length: usize,
    expected: Result<Outcome, Fault>,
    written: &[u32],
) -> Result<(), Fail> {
    let mut memory = three(rt, heap)?;
    let (answer, output) = transduce(rt, heap, &mut memory, number, text, length)?;
    assert_eq!(rt; answer, expected);
    assert!(rt; output.as_slice() == written);
    Ok(())
}

#[test]
fn written(rt: HostRuntime) -> Result<(), Fail> {
    let heap = rt.alloc();
    let text = [0x41, 0x26];
    let escaped = [0x41, 0x26, 0x61, 0x6d, 0x70, 0x3b];
    let six = Ok(Outcome::Written { state: 0, count: 6 });
    let short = Err(Fault::TooShort(6));
    gives(&rt, heap, 1, &text, 6, six, &escaped)?;
    gives(&rt, heap, 1, &text, 9, six, &escaped)?;
    gives(&rt, heap, 1, &text, 5, short, &[])?;
    gives(&rt, heap, 1, &text, 0, short, &[])?;
    let none = Ok(Outcome::Written { state: 0, count: 0 });
    gives(&rt, heap, 1, &[], 0, none, &[])?;
    gives(&rt, heap, 2, &[], 3, none, &[])?;
    let two = Ok(Outcome::Written { state: 1, count: 2 });
    gives(&rt, heap, 2, &[0x61, 0x61], 2, two, &[0x61, 0x61])?;
    gives(&rt, heap, 2, &[0x61, 0x61], 1, Err(Fault::TooShort(2)), &[])
}

#[test]
fn rejected(rt: HostRuntime) -> Result<(), Fail> {
    let heap = rt.alloc();
    let first = Ok(Outcome::Rejected { position: 0 });
    let second = Ok(Outcome::Rejected { position: 1 });
    gives(&rt, heap, 2, &[0x61, 0x62, 0x61], 9, second, &[])?;
    gives(&rt, heap, 2, &[0x61, 0x62, 0x61], 0, second, &[])?;
    gives(&rt, heap, 3, &[], 4, first, &[])?;
    gives(&rt, heap, 3, &[0x61], 4, second, &[])?;
    gives(&rt, heap, 1, &[256], 4, first, &[])?;
    gives(&rt, heap, 1, &[0x20, u32::MAX], 4, second, &[])
}

#[test]
fn long_texts(rt: HostRuntime) -> Result<(), Fail> {
    let heap = rt.alloc();
    let mut memory = three(&rt, heap)?;
    let text = filled(heap, 0x62, 1048577)?;
    for (number, fault) in [
        (1, Fault::LongText),
        (3, Fault::LongText),
        (4, Fault::NoHolding(4)),
    ] {
        let (answer, _) = transduce(&rt, heap, &mut memory, number, text.as_slice(), 9)?;
        assert_eq!(rt; answer, Err(fault));
    }
    Ok(())
}

#[test]
fn longest_text(rt: HostRuntime) -> Result<(), Fail> {
    let heap = rt.alloc();
    let count = 1048576;
    let text = filled(heap, 0x62, count)?;
    let text = text.as_slice();
    let whole = Ok(Outcome::Written { state: 0, count });
    gives(&rt, heap, 1, text, 1048577, whole, text)?;
    gives(
        &rt,
        heap,
        1,
        text,
        1048575,
        Err(Fault::TooShort(count)),
        &[],
    )
}
