// Filing: a full shelf, doubles, and lists that are just long enough.
use crate::byte_calls::{compare, file, join, transduce};
use crate::calls::{fault_of, is_equivalent, is_text};
use crate::memory::{Room, WIDE};
use crate::samples;
use crate::samples::{ByteMemory, COPY};
use answers::Fault;
use builtin::bytes::{escape, lower};
use holdings::{Entry, Head};
use ranges::Bytes;
use std::alloc::Global;
use std::process::Abort;
use std::test::Fail;
use table::{Draft, State};

// Files the filter that copies the bytes up to one, and rejects the others.
fn file_up_to(
    rt: &impl Abort,
    heap: Global,
    memory: &mut ByteMemory,
    high: u32,
) -> Result<Result<usize, Fault>, Fail> {
    let rules = [samples::rule(0, high)];
    let draft = samples::bytes(&[samples::ACCEPTS], &rules, &[COPY]);
    file(rt, heap, memory, &draft)
}

// A shelf with sixteen holdings: the first copies symbol 0 alone, and each copies one symbol more than the one before.
fn full_shelf(rt: &impl Abort, heap: Global) -> Result<ByteMemory, Fail> {
    let mut memory = samples::byte_shelf(heap, WIDE)?;
    for high in 0..16u8 {
        let answer = file_up_to(rt, heap, &mut memory, high as u32)?;
        assert_eq!(rt; answer, Ok(high as usize + 1));
    }
    Ok(memory)
}

#[test]
fn seventeenth_filter(rt: HostRuntime) -> Result<(), Fail> {
    let heap = rt.alloc();
    let mut memory = full_shelf(&rt, heap)?;
    for (high, fault) in [
        (16, Fault::Full),
        (255, Fault::Full),
        (0, Fault::Double(1)),
        (4, Fault::Double(5)),
        (15, Fault::Double(16)),
    ] {
        assert_eq!(rt; file_up_to(&rt, heap, &mut memory, high)?, Err(fault));
    }
    Ok(())
}

#[test]
fn numbers_of_a_full_shelf(rt: HostRuntime) -> Result<(), Fail> {
    let heap = rt.alloc();
    let mut memory = full_shelf(&rt, heap)?;
    assert!(rt; is_text(compare(&rt, heap, &mut memory, 16, 1)?, &[1]));
    assert_eq!(rt; join(&rt, heap, &mut memory, 9, 16)?, Err(Fault::Double(9)));
    assert_eq!(rt;
        join(&rt, heap, &mut memory, 9, 17)?,
        Err(Fault::NoHolding(17))
    );
    Ok(())
}

#[test]
fn empty_lists(rt: HostRuntime) -> Result<(), Fail> {
    let heap = rt.alloc();
    let none = Room {
        ledger: 0,
        states: 0,
        rules: 0,
        outputs: 0,
    };
    let mut memory = samples::byte_shelf(heap, none)?;
    assert_eq!(rt; file(&rt, heap, &mut memory, &escape())?, Err(Fault::Full));
    assert_eq!(rt;
        join(&rt, heap, &mut memory, 1, 1)?,
        Err(Fault::NoHolding(1))
    );
    assert_eq!(rt;
        fault_of(compare(&rt, heap, &mut memory, 1, 1)?),
        Some(Fault::NoHolding(1))
    );
    let (answer, _) = transduce(&rt, heap, &mut memory, 1, &[], 0)?;
    assert_eq!(rt; fault_of(answer), Some(Fault::NoHolding(1)));
    Ok(())
}

// Files a filter of 1 state, 3 rules and 7 outputs on an empty shelf.
fn file_escape(rt: &impl Abort, heap: Global, room: Room) -> Result<Result<usize, Fault>, Fail> {
    let mut memory = samples::byte_shelf(heap, room)?;
    file(rt, heap, &mut memory, &escape())
}

#[test]
fn lists_just_long_enough(rt: HostRuntime) -> Result<(), Fail> {
    let heap = rt.alloc();
    let exact = Room {
        ledger: 1,
        states: 1,
        rules: 3,
        outputs: 7,
    };
    assert_eq!(rt; file_escape(&rt, heap, exact)?, Ok(1));
    for short in [
        Room { ledger: 0, ..exact },
        Room { states: 0, ..exact },
        Room { rules: 2, ..exact },
        Room {
            outputs: 6,
            ..exact
        },
    ] {
        assert_eq!(rt; file_escape(&rt, heap, short)?, Err(Fault::Full));
    }
    Ok(())
}

// A double is named where there would be no room either.
#[test]
fn doubles_before_room(rt: HostRuntime) -> Result<(), Fail> {
    let heap = rt.alloc();
    let exact = Room {
        ledger: 1,
        states: 1,
        rules: 3,
        outputs: 7,
    };
    let mut memory = samples::byte_shelf(heap, exact)?;
    assert_eq!(rt; file(&rt, heap, &mut memory, &escape())?, Ok(1));
    assert_eq!(rt; file(&rt, heap, &mut memory, &lower())?, Err(Fault::Full));
    assert_eq!(rt;
        file(&rt, heap, &mut memory, &escape())?,
        Err(Fault::Double(1))
    );
    Ok(())
}

// Writes a filter behind the others, and asks nothing.
fn put(memory: &mut ByteMemory, draft: &Draft<'_, Bytes>) -> Result<(), Fail> {
    let entry = Entry {
        states: u16::try_from(draft.states.len())?,
        rules: u16::try_from(draft.rules.len())?,
        outputs: u16::try_from(draft.outputs.len())?,
    };
    memory.ledger.extend_from_slice(&[entry])?;
    memory.states.extend_from_slice(draft.states)?;
    memory.rules.extend_from_slice(draft.rules)?;
    memory.outputs.extend_from_slice(draft.outputs)?;
    memory.head = Head {
        holdings: memory.ledger.len(),
        states: memory.states.len(),
        rules: memory.rules.len(),
        outputs: memory.outputs.len(),
    };
    Ok(())
}

// A shelf with doubles: lower, then copying three times, and room for one more.
fn with_doubles(heap: Global) -> Result<ByteMemory, Fail> {
    let none = Room {
        ledger: 0,
        states: 0,
        rules: 0,
        outputs: 0,
    };
    let mut memory = samples::byte_shelf(heap, none)?;
    put(&mut memory, &lower())?;
    put(&mut memory, &samples::copy())?;
    put(&mut memory, &samples::copy_in_halves())?;
    put(&mut memory, &samples::copy())?;
    let entry = Entry {
        states: 0,
        rules: 0,
        outputs: 0,
    };
    memory.ledger.extend_from_slice(&[entry; 2])?;
    memory
        .states
        .extend_from_slice(&[State { mark: 3, finals: 3 }; 2])?;
    memory.rules.extend_from_slice(&[samples::rule(1, 0); 4])?;
    memory.outputs.extend_from_slice(&[COPY; 8])?;
    Ok(memory)
}

#[test]
fn doubles_there_already(rt: HostRuntime) -> Result<(), Fail> {
    let heap = rt.alloc();
    let mut memory = with_doubles(heap)?;
    let copy = samples::copy();
    assert_eq!(rt; file(&rt, heap, &mut memory, &copy)?, Err(Fault::Double(2)));
    let parts = samples::copy_in_halves();
    assert_eq!(rt;
        file(&rt, heap, &mut memory, &parts)?,
        Err(Fault::Double(2))
    );
    assert!(rt; is_equivalent(compare(&rt, heap, &mut memory, 4, 2)?));
    assert_eq!(rt; file(&rt, heap, &mut memory, &escape())?, Ok(5));
    Ok(())
}

#[test]
fn joins_among_doubles(rt: HostRuntime) -> Result<(), Fail> {
    let heap = rt.alloc();
    let mut memory = with_doubles(heap)?;
    for (first, second, lowest) in [(4, 3, 2), (1, 1, 1), (3, 1, 1)] {
        let answer = join(&rt, heap, &mut memory, first, second)?;
        assert_eq!(rt; answer, Err(Fault::Double(lowest)));
    }
    Ok(())
}
