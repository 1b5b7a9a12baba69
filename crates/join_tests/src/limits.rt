// Joins at the limits: states, rules and the outputs of one rule.
use crate::joined::{ENOUGH, NoJoin, Owned, join_into};
use crate::samples::{BYTE_RULE, BYTE_TERM};
use ranges::{Bytes, Range, RangeTerm};
use std::alloc::{AllocError, Global};
use std::test::Fail;
use table::{Rule, State};

fn empty(heap: Global) -> Owned<Bytes> {
    Owned {
        states: Vec::new(heap),
        rules: Vec::new(heap),
        outputs: Vec::new(heap),
    }
}

// One rule more, which copies its symbol some times.
fn add(
    table: &mut Owned<Bytes>,
    state: u16,
    next: u16,
    low: u32,
    high: u32,
    times: u16,
) -> Result<(), AllocError> {
    table.rules.push(Rule {
        state,
        next,
        outputs: times,
        guard: Range { low, high },
    })?;
    for _ in 0..times {
        table.outputs.push(RangeTerm::Shift(0))?;
    }
    Ok(())
}

// A cycle of accepting states over the letter a, which is copied some times.
fn cycle(heap: Global, count: u16, times: u16) -> Result<Owned<Bytes>, AllocError> {
    let mut table = empty(heap);
    for state in 0..count {
        table.states.push(State { mark: 1, finals: 0 })?;
        let next = if state < count - 1 { state + 1 } else { 0 };
        add(&mut table, state, next, 97, 97, times)?;
    }
    Ok(table)
}

// A cycle of states, each with a rule for 0 and 1 together and one for every symbol from 2 to 255; and `more` states
// with one rule.
fn wide(heap: Global, count: u16, more: u16) -> Result<Owned<Bytes>, AllocError> {
    let mut table = empty(heap);
    let all = count.saturating_add(more);
    for state in 0..all {
        table.states.push(State { mark: 1, finals: 0 })?;
        let next = if state < all - 1 { state + 1 } else { 0 };
        if state < count {
            add(&mut table, state, next, 0, 1, 1)?;
            for symbol in 2..256 {
                add(&mut table, state, next, symbol, symbol, 1)?;
            }
        } else {
            add(&mut table, state, next, 5, 9, 1)?;
        }
    }
    Ok(table)
}

// Copies, by one rule for 0 and one for the rest.
fn split(heap: Global) -> Result<Owned<Bytes>, AllocError> {
    let mut table = empty(heap);
    table.states.push(State { mark: 1, finals: 0 })?;
    add(&mut table, 0, 0, 0, 0, 1)?;
    add(&mut table, 0, 0, 1, 255, 1)?;
    Ok(table)
}

// Whether two tables are joined, or why they are not.
fn fits(heap: Global, one: &Owned<Bytes>, other: &Owned<Bytes>) -> Result<(), NoJoin> {
    let (first, second) = (one.draft(), other.draft());
    join_into(heap, &first, &second, ENOUGH, BYTE_RULE, BYTE_TERM)?;
    Ok(())
}

#[test]
fn limits_of_joins(rt: HostRuntime) -> Result<(), Fail> {
    let heap = rt.alloc();
    assert_eq!(rt;
        fits(heap, &cycle(heap, 64, 1)?, &cycle(heap, 1, 1)?),
        Ok(())
    );
    assert_eq!(rt;
        fits(heap, &cycle(heap, 5, 1)?, &cycle(heap, 13, 1)?),
        Err(NoJoin::TooLarge)
    );
    assert_eq!(rt;
        fits(heap, &cycle(heap, 1, 32)?, &cycle(heap, 1, 1)?),
        Ok(())
    );
    assert_eq!(rt;
        fits(heap, &cycle(heap, 1, 11)?, &cycle(heap, 1, 3)?),
        Err(NoJoin::TooLarge)
    );
    assert_eq!(rt; fits(heap, &wide(heap, 4, 0)?, &split(heap)?), Ok(()));
    assert_eq!(rt;
        fits(heap, &wide(heap, 4, 1)?, &split(heap)?),
        Err(NoJoin::TooLarge)
    );
    Ok(())
}
