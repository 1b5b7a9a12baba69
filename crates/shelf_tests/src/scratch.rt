// Scratch that is one short, in either part, and scratch that is exactly enough.
use crate::byte_calls::{file, file_with, join_with, shelf_of};
use crate::calls::{LONG, Lent, Lists};
use crate::memory::WIDE;
use crate::samples;
use answers::Fault;
use builtin::bytes::{escape, lower};
use std::test::Fail;

// Filters of one state need 4 steps; with outputs of 1 they need 30 symbols, with outputs of 5 they need 150.
#[test]
fn filing_one_state(rt: HostRuntime) -> Result<(), Fail> {
    let heap = rt.alloc();
    let mut memory = shelf_of(&rt, heap, &[samples::copy(), escape()])?;
    for (steps, symbols, holding) in [(0, 0, 1), (3, 150, 1), (4, 29, 1), (4, 30, 2), (4, 149, 2)] {
        let answer = file_with(&rt, heap, &mut memory, &lower(), steps, symbols)?;
        assert_eq!(rt; answer, Err(Fault::ShortScratch(holding)));
    }
    let double = file_with(&rt, heap, &mut memory, &samples::copy(), 4, 149)?;
    assert_eq!(rt; double, Err(Fault::ShortScratch(2)));
    assert_eq!(rt; file_with(&rt, heap, &mut memory, &lower(), 4, 150)?, Ok(3));
    Ok(())
}

// One state and two need 7 steps and 48 symbols, two and two 12 steps and 78 symbols.
#[test]
fn filing_two_states(rt: HostRuntime) -> Result<(), Fail> {
    let heap = rt.alloc();
    let mut memory = shelf_of(&rt, heap, &[samples::copy()])?;
    let draft = samples::delayed_letter();
    for (steps, symbols, answer) in [
        (6, 48, Err(Fault::ShortScratch(1))),
        (7, 47, Err(Fault::ShortScratch(1))),
        (7, 48, Ok(2)),
        (11, 78, Err(Fault::ShortScratch(2))),
        (12, 77, Err(Fault::ShortScratch(2))),
        (12, 78, Err(Fault::Double(2))),
    ] {
        assert_eq!(rt;
            file_with(&rt, heap, &mut memory, &draft, steps, symbols)?,
            answer
        );
    }
    Ok(())
}

// The first filter is compared with none.
#[test]
fn filing_first(rt: HostRuntime) -> Result<(), Fail> {
    let heap = rt.alloc();
    let mut memory = samples::byte_shelf(heap, WIDE)?;
    assert_eq!(rt; file_with(&rt, heap, &mut memory, &escape(), 0, 0)?, Ok(1));
    assert_eq!(rt;
        file_with(&rt, heap, &mut memory, &escape(), 0, 0)?,
        Err(Fault::ShortScratch(1))
    );
    assert_eq!(rt;
        file(&rt, heap, &mut memory, &escape())?,
        Err(Fault::Double(1))
    );
    Ok(())
}

#[test]
fn joining_scratch(rt: HostRuntime) -> Result<(), Fail> {
    let heap = rt.alloc();
    let mut memory = shelf_of(&rt, heap, &[samples::copy(), escape(), lower()])?;
    for (first, second, steps, symbols, answer) in [
        (3, 2, 3, 150, Err(Fault::ShortScratch(1))),
        (3, 2, 4, 149, Err(Fault::ShortScratch(1))),
        (1, 3, 4, 149, Err(Fault::ShortScratch(2))),
        (1, 3, 4, 150, Err(Fault::Double(3))),
        (3, 2, 4, 150, Ok(4)),
    ] {
        let lent = Lent { steps, symbols };
        let found = join_with(&rt, heap, &mut memory, first, second, LONG, lent)?;
        assert_eq!(rt; found, answer);
    }
    let none = Lent {
        steps: 0,
        symbols: 0,
    };
    let short = Lists { rules: 0, ..LONG };
    assert_eq!(rt;
        join_with(&rt, heap, &mut memory, 3, 2, short, none)?,
        Err(Fault::TooLarge)
    );
    Ok(())
}
