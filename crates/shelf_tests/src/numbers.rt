// Numbers without a holding, and the same number twice.
use crate::byte_calls::{compare, join, shelf_of, transduce};
use crate::calls::{fault_of, is_equivalent};
use crate::samples;
use crate::samples::ByteMemory;
use answers::Fault;
use builtin::bytes::escape;
use std::alloc::Global;
use std::process::Abort;
use std::test::Fail;

// Joining and comparing these two numbers is refused with one of them.
fn are_missing(
    rt: &impl Abort,
    heap: Global,
    memory: &mut ByteMemory,
    first: usize,
    second: usize,
    named: usize,
) -> Result<(), Fail> {
    let fault = Fault::NoHolding(named);
    assert_eq!(rt; join(rt, heap, memory, first, second)?, Err(fault));
    assert_eq!(rt;
        fault_of(compare(rt, heap, memory, first, second)?),
        Some(fault)
    );
    Ok(())
}

// A number is refused wherever it stands.
fn is_missing(
    rt: &impl Abort,
    heap: Global,
    memory: &mut ByteMemory,
    number: usize,
) -> Result<(), Fail> {
    are_missing(rt, heap, memory, number, 1, number)?;
    are_missing(rt, heap, memory, 1, number, number)?;
    are_missing(rt, heap, memory, number, number, number)?;
    let (answer, _) = transduce(rt, heap, memory, number, &[0x41], 9)?;
    assert_eq!(rt; fault_of(answer), Some(Fault::NoHolding(number)));
    Ok(())
}

#[test]
fn missing_numbers(rt: HostRuntime) -> Result<(), Fail> {
    let heap = rt.alloc();
    let mut memory = shelf_of(&rt, heap, &[samples::copy(), escape()])?;
    for number in [0, 3, 16, 17, usize::MAX] {
        is_missing(&rt, heap, &mut memory, number)?;
    }
    Ok(())
}

#[test]
fn first_number_first(rt: HostRuntime) -> Result<(), Fail> {
    let heap = rt.alloc();
    let mut memory = shelf_of(&rt, heap, &[samples::copy(), escape()])?;
    are_missing(&rt, heap, &mut memory, 17, 0, 17)?;
    are_missing(&rt, heap, &mut memory, 0, 17, 0)
}

#[test]
fn same_number_twice(rt: HostRuntime) -> Result<(), Fail> {
    let heap = rt.alloc();
    let mut memory = shelf_of(&rt, heap, &[samples::copy(), escape()])?;
    for (number, answer) in [
        (1, Err(Fault::Double(1))),
        (2, Ok(3)),
        (2, Err(Fault::Double(3))),
        (3, Ok(4)),
    ] {
        assert_eq!(rt; join(&rt, heap, &mut memory, number, number)?, answer);
        assert!(rt; is_equivalent(compare(&rt, heap, &mut memory, number, number)?));
    }
    Ok(())
}
