// Damaged shelves: every call but opening refuses them, before it looks at anything else.
use crate::byte_calls::{compare, file, join, shelf_of, transduce};
use crate::calls::fault_of;
use crate::samples;
use crate::samples::ByteMemory;
use alphabet::Cause;
use answers::{Fault, Report};
use builtin::bytes::{escape, lower};
use holdings::Head;
use ranges::RangeTerm;
use std::alloc::Global;
use std::process::Abort;
use std::test::Fail;
use table::{FaultCode, State, TableFault};

// Lower, copying, and the letter a alone: 3 states, 5 rules, 5 outputs.
fn three(rt: &impl Abort, heap: Global) -> Result<ByteMemory, Fail> {
    shelf_of(
        rt,
        heap,
        &[lower(), samples::copy(), samples::copy_letter()],
    )
}

// Every call gives this fault, with numbers that have a holding and with others.
fn all_refuse(
    rt: &impl Abort,
    heap: Global,
    memory: &mut ByteMemory,
    fault: Fault,
) -> Result<(), Fail> {
    assert_eq!(rt; file(rt, heap, memory, &escape())?, Err(fault));
    let empty = samples::bytes(&[], &[], &[]);
    assert_eq!(rt; file(rt, heap, memory, &empty)?, Err(fault));
    for (first, second) in [(1, 2), (0, 99)] {
        assert_eq!(rt; join(rt, heap, memory, first, second)?, Err(fault));
        assert_eq!(rt;
            fault_of(compare(rt, heap, memory, first, second)?),
            Some(fault)
        );
        let (answer, _) = transduce(rt, heap, memory, first, &[0x41], 9)?;
        assert_eq!(rt; fault_of(answer), Some(fault));
    }
    Ok(())
}

#[test]
fn damaged_heads(rt: HostRuntime) -> Result<(), Fail> {
    let heap = rt.alloc();
    for (holdings, states, rules, outputs) in [
        (2, 3, 5, 5),
        (4, 3, 5, 5),
        (17, 3, 5, 5),
        (usize::MAX, 3, 5, 5),
        (3, 4, 5, 5),
        (3, 3, 4, 5),
        (3, 3, 5, 6),
    ] {
        let mut memory = three(&rt, heap)?;
        memory.head = Head {
            holdings,
            states,
            rules,
            outputs,
        };
        all_refuse(&rt, heap, &mut memory, Fault::Misfit)?;
    }
    Ok(())
}

#[test]
fn damaged_ledger(rt: HostRuntime) -> Result<(), Fail> {
    let heap = rt.alloc();
    let mut memory = three(&rt, heap)?;
    if let Some(entry) = memory.ledger.get_mut(1) {
        entry.states = 2;
    }
    all_refuse(&rt, heap, &mut memory, Fault::Misfit)?;
    if let Some(entry) = memory.ledger.get_mut(1) {
        entry.states = 1;
        entry.rules = 0;
    }
    all_refuse(&rt, heap, &mut memory, Fault::Misfit)?;
    // The first holding takes over the rule of the second, so that the sums are right.
    if let Some(entry) = memory.ledger.get_mut(0) {
        entry.rules = 4;
    }
    let fault = Fault::Unsound(1, TableFault::OutputCount);
    all_refuse(&rt, heap, &mut memory, fault)
}

#[test]
fn lists_cut_short(rt: HostRuntime) -> Result<(), Fail> {
    let heap = rt.alloc();
    for (ledger, states, rules, outputs) in [
        (2, 3, 5, 5),
        (3, 2, 5, 5),
        (3, 3, 4, 5),
        (3, 3, 5, 4),
    ] {
        let mut memory = three(&rt, heap)?;
        memory.ledger.truncate(ledger);
        memory.states.truncate(states);
        memory.rules.truncate(rules);
        memory.outputs.truncate(outputs);
        all_refuse(&rt, heap, &mut memory, Fault::Misfit)?;
    }
    Ok(())
}

#[test]
fn unsound_holdings(rt: HostRuntime) -> Result<(), Fail> {
    let heap = rt.alloc();
    let mut memory = three(&rt, heap)?;
    if let Some(term) = memory.outputs.get_mut(4) {
        *term = RangeTerm::Shift(256);
    }
    let third = TableFault::UnsoundOutput(0, Cause::OutOfBounds);
    all_refuse(&rt, heap, &mut memory, Fault::Unsound(3, third))?;
    if let Some(rule) = memory.rules.get_mut(3) {
        rule.guard.low = 256;
    }
    let second = TableFault::UnsoundGuard(0, Cause::NoSymbols);
    all_refuse(&rt, heap, &mut memory, Fault::Unsound(2, second))?;
    if let Some(state) = memory.states.get_mut(1) {
        *state = State { mark: 2, finals: 0 };
    }
    let lowest = Fault::Unsound(2, TableFault::BadState(0));
    all_refuse(&rt, heap, &mut memory, lowest)
}

#[test]
fn reports_of_holdings(rt: HostRuntime) {
    let fault = TableFault::UnsoundGuard(4, Cause::NoSymbols);
    let inner = FaultCode {
        number: 6,
        place: 4,
        cause: Some(Cause::NoSymbols),
    };
    let report = Report {
        number: 1,
        place: 2,
        cause: None,
        inner: Some(inner),
    };
    assert_eq!(rt; Fault::Unsound(2, fault).report(), report);
}
