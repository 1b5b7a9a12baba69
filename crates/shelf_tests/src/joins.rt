// Joining: lists that are just long enough, doubles, and what is held.
use crate::byte_calls::{compare, file, join, join_with, shelf_of, transduce};
use crate::calls::{LONG, Lists, PLENTY, file_on, is_text, join_on};
use crate::memory::{Room, WIDE};
use crate::samples;
use crate::samples::MarkMemory;
use answers::Fault;
use builtin::bytes::{escape, lower};
use filter::Outcome;
use marks::Marks;
use std::alloc::Global;
use std::process::Abort;
use std::test::Fail;
use table::Draft;

// The join of lower and escape has 1 state, 5 rules and 9 outputs.
const EXACT: Lists = Lists {
    states: 1,
    rules: 5,
    outputs: 9,
    pairs: 1,
};

fn join_in(rt: &impl Abort, heap: Global, lists: Lists) -> Result<Result<usize, Fault>, Fail> {
    let mut memory = shelf_of(rt, heap, &[lower(), escape()])?;
    join_with(rt, heap, &mut memory, 1, 2, lists, PLENTY)
}

#[test]
fn lists_one_short(rt: HostRuntime) -> Result<(), Fail> {
    let heap = rt.alloc();
    assert_eq!(rt; join_in(&rt, heap, EXACT)?, Ok(3));
    for short in [
        Lists { states: 0, ..EXACT },
        Lists { rules: 4, ..EXACT },
        Lists {
            outputs: 8,
            ..EXACT
        },
        Lists { pairs: 0, ..EXACT },
    ] {
        assert_eq!(rt; join_in(&rt, heap, short)?, Err(Fault::TooLarge));
    }
    Ok(())
}

// Joins lower and escape on a shelf with this room.
fn join_on_shelf(rt: &impl Abort, heap: Global, room: Room) -> Result<Result<usize, Fault>, Fail> {
    let mut memory = samples::byte_shelf(heap, room)?;
    assert_eq!(rt; file(rt, heap, &mut memory, &lower())?, Ok(1));
    assert_eq!(rt; file(rt, heap, &mut memory, &escape())?, Ok(2));
    join(rt, heap, &mut memory, 1, 2)
}

#[test]
fn room_on_the_shelf(rt: HostRuntime) -> Result<(), Fail> {
    let heap = rt.alloc();
    let exact = Room {
        ledger: 3,
        states: 3,
        rules: 11,
        outputs: 19,
    };
    assert_eq!(rt; join_on_shelf(&rt, heap, exact)?, Ok(3));
    for short in [
        Room { ledger: 2, ..exact },
        Room { states: 2, ..exact },
        Room { rules: 10, ..exact },
        Room {
            outputs: 18,
            ..exact
        },
    ] {
        assert_eq!(rt; join_on_shelf(&rt, heap, short)?, Err(Fault::Full));
    }
    Ok(())
}

#[test]
fn joins_of_bytes(rt: HostRuntime) -> Result<(), Fail> {
    let heap = rt.alloc();
    let mut memory = shelf_of(&rt, heap, &[lower(), escape()])?;
    for (first, second, answer) in [
        (1, 1, Err(Fault::Double(1))),
        (2, 2, Ok(3)),
        (1, 2, Ok(4)),
        (2, 1, Err(Fault::Double(4))),
    ] {
        assert_eq!(rt; join(&rt, heap, &mut memory, first, second)?, answer);
    }
    Ok(())
}

#[test]
fn escaping_twice(rt: HostRuntime) -> Result<(), Fail> {
    let heap = rt.alloc();
    let mut memory = shelf_of(&rt, heap, &[escape()])?;
    assert_eq!(rt; join(&rt, heap, &mut memory, 1, 1)?, Ok(2));
    assert!(rt; is_text(compare(&rt, heap, &mut memory, 2, 1)?, &[0x26]));
    assert!(rt; is_text(compare(&rt, heap, &mut memory, 1, 2)?, &[0x26]));
    Ok(())
}

#[test]
fn joined_at_work(rt: HostRuntime) -> Result<(), Fail> {
    let heap = rt.alloc();
    let mut memory = shelf_of(&rt, heap, &[lower(), escape()])?;
    assert_eq!(rt; join(&rt, heap, &mut memory, 1, 2)?, Ok(3));
    let (answer, written) = transduce(&rt, heap, &mut memory, 3, &[0x41, 0x26], 20)?;
    assert_eq!(rt; answer, Ok(Outcome::Written { state: 0, count: 6 }));
    assert!(rt; written.as_slice() == [0x61, 0x26, 0x61, 0x6d, 0x70, 0x3b].as_slice());
    Ok(())
}

// A shelf of marks with these filters on it, each of them held.
fn turns(rt: &impl Abort, heap: Global, drafts: &[Draft<'_, Marks>]) -> Result<MarkMemory, Fail> {
    let mut memory = samples::mark_shelf(heap, WIDE)?;
    for draft in drafts {
        let next = memory.head.holdings.saturating_add(1);
        let answer = file_on::<Marks>(rt, heap, &mut memory, draft, PLENTY)?;
        assert_eq!(rt; answer, Ok(next));
    }
    Ok(memory)
}

#[test]
fn turns_that_undo_each_other(rt: HostRuntime) -> Result<(), Fail> {
    let heap = rt.alloc();
    let mut memory = turns(
        &rt,
        heap,
        &[
            samples::copy_marks(),
            samples::turn_there(),
            samples::turn_back(),
        ],
    )?;
    for (first, second, answer) in [
        (2, 3, Err(Fault::Double(1))),
        (3, 2, Err(Fault::Double(1))),
        (2, 2, Ok(4)),
        (4, 3, Err(Fault::Double(2))),
    ] {
        let found = join_on::<Marks>(&rt, heap, &mut memory, first, second, LONG, PLENTY)?;
        assert_eq!(rt; found, answer);
    }
    Ok(())
}

// Where copying does not stand yet, the join of the turns is held, and copying is then its double.
#[test]
fn turns_before_copying(rt: HostRuntime) -> Result<(), Fail> {
    let heap = rt.alloc();
    let mut memory = turns(&rt, heap, &[samples::turn_there(), samples::turn_back()])?;
    let joined = join_on::<Marks>(&rt, heap, &mut memory, 1, 2, LONG, PLENTY)?;
    assert_eq!(rt; joined, Ok(3));
    assert_eq!(rt;
        file_on::<Marks>(&rt, heap, &mut memory, &samples::copy_marks(), PLENTY)?,
        Err(Fault::Double(3))
    );
    Ok(())
}
