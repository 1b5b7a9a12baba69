// What joins do, and when they are refused.
use crate::joined::{ENOUGH, NoJoin, Room, join_into};
use crate::samples;
use crate::samples::{BYTE_RULE, BYTE_TERM, MARK_RULE, MARK_TERM};
use builtin::bytes::{escape, lower};
use cleaning::clean;
use comparing::compare_drafts;
use filter::Outcome;
use ranges::{Bytes, Range, RangeTerm};
use std::alloc::{AllocError, Global};
use std::test::Fail;
use table::{Draft, Rule, State};

// Whether the join of two filters over bytes is equivalent to a third.
fn joins_to<'x>(
    heap: Global,
    first: &'x Draft<'x, Bytes>,
    second: &'x Draft<'x, Bytes>,
    third: &Draft<'_, Bytes>,
) -> bool {
    let Ok(joined) = join_into(heap, first, second, ENOUGH, BYTE_RULE, BYTE_TERM) else {
        return false;
    };
    let draft = joined.draft();
    matches!(compare_drafts(heap, &draft, third), Ok(None))
}

// Whether the join of two filters writes this for a text.
fn join_writes<'x>(
    heap: Global,
    first: &'x Draft<'x, Bytes>,
    second: &'x Draft<'x, Bytes>,
    text: &[u32],
    expected: &[u32],
) -> bool {
    let Ok(joined) = join_into(heap, first, second, ENOUGH, BYTE_RULE, BYTE_TERM) else {
        return false;
    };
    let draft = joined.draft();
    match clean(heap, &draft, text) {
        Ok((Outcome::Written { .. }, out)) => out.as_slice() == expected,
        _ => false,
    }
}

// Whether a join does not fit into lists of these lengths.
fn too_large<'x>(
    heap: Global,
    first: &'x Draft<'x, Bytes>,
    second: &'x Draft<'x, Bytes>,
    room: Room,
) -> bool {
    matches!(
        join_into(heap, first, second, room, BYTE_RULE, BYTE_TERM),
        Err(NoJoin::TooLarge)
    )
}

#[test]
fn escapes_and_letters(rt: HostRuntime) {
    let heap = rt.alloc();
    let twice = [0x26, 0x61, 0x6d, 0x70, 0x3b, 0x61, 0x6d, 0x70, 0x3b];
    assert!(rt; join_writes(heap, &escape(), &escape(), &[0x26], &twice));
    assert!(rt; !joins_to(heap, &escape(), &escape(), &escape()));
    assert!(rt; joins_to(heap, &lower(), &lower(), &lower()));
    assert!(rt;
        join_writes(
            heap,
            &lower(),
            &escape(),
            &[0x41, 0x26],
            &[0x61, 0x26, 0x61, 0x6d, 0x70, 0x3b],
        )
    );
}

#[test]
fn turns_of_marks(rt: HostRuntime) -> Result<(), Fail> {
    let heap = rt.alloc();
    let there = samples::turn_there();
    let back = samples::turn_back();
    let joined = join_into(heap, &there, &back, ENOUGH, MARK_RULE, MARK_TERM).map_err(|_| Fail::new(
        "the turns are not joined",
    ))?;
    let draft = joined.draft();
    assert!(rt;
        matches!(
            compare_drafts(heap, &draft, &samples::copy_marks()),
            Ok(None)
        )
    );
    Ok(())
}

#[test]
fn ends_of_texts(rt: HostRuntime) {
    let heap = rt.alloc();
    assert!(rt; joins_to(heap, &samples::drop_all(), &escape(), &samples::drop_all()));
    let rejecting = samples::drop_and_reject();
    assert!(rt; joins_to(heap, &rejecting, &escape(), &rejecting));
    assert!(rt; joins_to(heap, &escape(), &rejecting, &rejecting));
    let closing = samples::copy_and_close();
    assert!(rt;
        join_writes(
            heap,
            &closing,
            &escape(),
            &[],
            &[0x26, 0x61, 0x6d, 0x70, 0x3b],
        )
    );
    assert!(rt;
        join_writes(
            heap,
            &samples::write_twice(),
            &samples::copy_digits(),
            &[0x31],
            &[0x31, 0x31],
        )
    );
    assert!(rt;
        !join_writes(
            heap,
            &samples::write_twice(),
            &samples::copy_digits(),
            &[0x41],
            &[0x41, 0x41],
        )
    );
}

#[test]
fn lists_too_short(rt: HostRuntime) -> Result<(), Fail> {
    let heap = rt.alloc();
    let first = lower();
    let second = escape();
    let joined = join_into(heap, &first, &second, ENOUGH, BYTE_RULE, BYTE_TERM).map_err(
        |_| Fail::new("not joined"),
    )?;
    let exact = Room {
        states: joined.states.len(),
        rules: joined.rules.len(),
        outputs: joined.outputs.len(),
        pairs: joined.states.len(),
    };
    assert!(rt; !too_large(heap, &first, &second, exact));
    assert!(rt; exact.states > 0 && exact.rules > 0 && exact.outputs > 0);
    assert!(rt;
        too_large(
            heap,
            &first,
            &second,
            Room {
                states: exact.states - 1,
                ..exact
            },
        )
    );
    assert!(rt;
        too_large(
            heap,
            &first,
            &second,
            Room {
                rules: exact.rules - 1,
                ..exact
            },
        )
    );
    assert!(rt;
        too_large(
            heap,
            &first,
            &second,
            Room {
                outputs: exact.outputs - 1,
                ..exact
            },
        )
    );
    assert!(rt;
        too_large(
            heap,
            &first,
            &second,
            Room {
                pairs: exact.pairs - 1,
                ..exact
            },
        )
    );
    Ok(())
}

// A way that dies at its second output leaves no rule.
#[test]
fn ways_that_die(rt: HostRuntime) -> Result<(), Fail> {
    let heap = rt.alloc();
    let joined = join_into(
        heap,
        &samples::write_two(),
        &samples::copy_a(),
        ENOUGH,
        BYTE_RULE,
        BYTE_TERM,
    )
    .map_err(|_| Fail::new("not joined"))?;
    assert_eq!(rt; joined.states.len(), 1);
    assert_eq!(rt; joined.rules.len(), 0);
    Ok(())
}

// Whether a filter and then another write for a text what their join writes, or one of them rejects and so does it.
fn same_as_twice<'x>(
    heap: Global,
    first: &'x Draft<'x, Bytes>,
    second: &'x Draft<'x, Bytes>,
    joined: &Draft<'_, Bytes>,
    text: &[u32],
) -> bool {
    let Ok((at_once, whole)) = clean(heap, joined, text) else {
        return false;
    };
    let Ok((one, middle)) = clean(heap, first, text) else {
        return false;
    };
    let Ok((other, end)) = clean(heap, second, middle.as_slice()) else {
        return false;
    };
    match (at_once, one, other) {
        (Outcome::Written { .. }, Outcome::Written { .. }, Outcome::Written { .. }) => {
            whole.as_slice() == end.as_slice()
        }
        (Outcome::Rejected { .. }, Outcome::Rejected { .. }, _) => true,
        (Outcome::Rejected { .. }, _, Outcome::Rejected { .. }) => true,
        _ => false,
    }
}

// Every text of three symbols, of which each is one of sixteen.
#[test]
fn many_texts(rt: HostRuntime) -> Result<(), Fail> {
    let heap = rt.alloc();
    let first = samples::write_twice();
    let second = samples::copy_and_close();
    let joined = join_into(heap, &first, &second, ENOUGH, BYTE_RULE, BYTE_TERM).map_err(
        |_| Fail::new("not joined"),
    )?;
    let draft = joined.draft();
    for a in 0..16u32 {
        for b in 0..16u32 {
            for c in 0..16u32 {
                let text = [0x38 + a, 0x32 + b, 0x2e + c];
                assert!(rt; same_as_twice(heap, &first, &second, &draft, &text));
            }
        }
    }
    Ok(())
}
