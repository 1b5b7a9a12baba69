// Comparing: scratch and witness one short and exactly enough, and the texts found.
use crate::byte_calls::{compare, compare_with, shelf_of};
use crate::calls::{Lent, fault_of, is_equivalent, is_text};
use crate::samples;
use crate::samples::ByteMemory;
use answers::Fault;
use builtin::bytes::escape;
use std::alloc::Global;
use std::process::Abort;
use std::test::Fail;

// Copying, escaping, and a filter of two states.
fn three(rt: &impl Abort, heap: Global) -> Result<ByteMemory, Fail> {
    shelf_of(
        rt,
        heap,
        &[samples::copy(), escape(), samples::delayed_letter()],
    )
}

// The fault of a comparison with scratch and a witness of these lengths.
fn short(
    rt: &impl Abort,
    heap: Global,
    first: usize,
    second: usize,
    steps: usize,
    symbols: usize,
    length: usize,
) -> Result<Option<Fault>, Fail> {
    let mut memory = three(rt, heap)?;
    let lent = Lent { steps, symbols };
    let answer = compare_with(rt, heap, &mut memory, first, second, lent, length)?;
    Ok(fault_of(answer))
}

// The second number is named.
#[test]
fn scratch_one_short(rt: HostRuntime) -> Result<(), Fail> {
    let heap = rt.alloc();
    for (first, second, steps, symbols, needed) in [
        (1, 2, 4, 150, 4),
        (2, 1, 4, 150, 4),
        (1, 1, 4, 30, 4),
        (3, 3, 12, 78, 12),
        (3, 1, 7, 48, 7),
        (1, 3, 7, 48, 7),
    ] {
        let fault = Some(Fault::ShortScratch(second));
        let witness = needed;
        let fewer = steps - 1;
        let less = symbols - 1;
        assert_eq!(rt;
            short(&rt, heap, first, second, fewer, symbols, witness)?,
            fault
        );
        assert_eq!(rt;
            short(&rt, heap, first, second, steps, less, witness)?,
            fault
        );
        assert_eq!(rt;
            short(&rt, heap, first, second, steps, symbols, witness)?,
            None
        );
    }
    Ok(())
}

// Also where the two are equivalent.
#[test]
fn witness_one_short(rt: HostRuntime) -> Result<(), Fail> {
    let heap = rt.alloc();
    for (first, second, steps, symbols, length, fault) in [
        (1, 2, 4, 150, 3, Fault::TooShort(4)),
        (1, 2, 4, 150, 0, Fault::TooShort(4)),
        (1, 1, 4, 150, 3, Fault::TooShort(4)),
        (3, 1, 7, 48, 6, Fault::TooShort(7)),
        (3, 3, 12, 78, 11, Fault::TooShort(12)),
        (1, 2, 3, 150, 0, Fault::ShortScratch(2)),
        (1, 4, 0, 0, 0, Fault::NoHolding(4)),
    ] {
        let found = short(&rt, heap, first, second, steps, symbols, length)?;
        assert_eq!(rt; found, Some(fault));
    }
    Ok(())
}

#[test]
fn texts_found(rt: HostRuntime) -> Result<(), Fail> {
    let heap = rt.alloc();
    let mut memory = three(&rt, heap)?;
    let enough = Lent {
        steps: 4,
        symbols: 150,
    };
    let exact = compare_with(&rt, heap, &mut memory, 1, 2, enough, 4)?;
    assert!(rt; is_text(exact, &[0x26]));
    for (first, second, symbol) in [(1, 2, 0x26), (2, 1, 0x26), (1, 3, 0), (3, 2, 0)] {
        let answer = compare(&rt, heap, &mut memory, first, second)?;
        assert!(rt; is_text(answer, &[symbol]));
    }
    for number in 1..4 {
        assert!(rt; is_equivalent(compare(&rt, heap, &mut memory, number, number)?));
    }
    Ok(())
}
