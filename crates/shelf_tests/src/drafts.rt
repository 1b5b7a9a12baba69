// Unsound drafts: each fault of a table reaches the caller whole, and has its number.
use crate::byte_calls::{file, file_with, shelf_of};
use crate::samples;
use crate::samples::{ACCEPTS, CLOSES, COPY, LETTER, rule};
use alphabet::Cause;
use answers::{Fault, Report};
use ranges::{Range, RangeTerm};
use std::alloc::Global;
use std::process::Abort;
use std::test::Fail;
use table::{Rule, State, TableFault};

// A draft is refused with this fault of its table.
fn refused<'x>(
    rt: &impl Abort,
    heap: Global,
    states: &'x [State],
    rules: &'x [Rule<Range>],
    outputs: &'x [RangeTerm],
    fault: TableFault,
) -> Result<(), Fail> {
    let mut memory = shelf_of(rt, heap, &[samples::copy()])?;
    let draft = samples::bytes(states, rules, outputs);
    assert_eq!(rt;
        file(rt, heap, &mut memory, &draft)?,
        Err(Fault::Draft(fault))
    );
    assert_eq!(rt;
        file_with(rt, heap, &mut memory, &draft, 0, 0)?,
        Err(Fault::Draft(fault))
    );
    let code = fault.code();
    let report = Report {
        number: code.number,
        place: code.place,
        cause: code.cause,
        inner: None,
    };
    assert_eq!(rt; Fault::Draft(fault).report(), report);
    Ok(())
}

#[test]
fn unsound_states(rt: HostRuntime) -> Result<(), Fail> {
    let heap = rt.alloc();
    let strange = State { mark: 2, finals: 0 };
    refused(&rt, heap, &[], &[], &[], TableFault::Limits)?;
    refused(&rt, heap, &[ACCEPTS; 65], &[], &[], TableFault::Limits)?;
    refused(
        &rt,
        heap,
        &[ACCEPTS, strange],
        &[],
        &[],
        TableFault::BadState(1),
    )
}

#[test]
fn unsound_rules(rt: HostRuntime) -> Result<(), Fail> {
    let heap = rt.alloc();
    let away = Rule {
        next: 1,
        ..rule(9, 9)
    };
    let long = Rule {
        outputs: 33,
        ..rule(9, 9)
    };
    let none = TableFault::UnsoundGuard(1, Cause::NoSymbols);
    let beyond = TableFault::UnsoundGuard(0, Cause::BeyondSize);
    refused(
        &rt,
        heap,
        &[ACCEPTS],
        &[rule(1, 2), away],
        &[COPY, COPY],
        TableFault::MissingState(1),
    )?;
    refused(&rt, heap, &[ACCEPTS], &[rule(1, 2), rule(2, 1)], &[], none)?;
    refused(&rt, heap, &[ACCEPTS], &[rule(0, 256)], &[COPY], beyond)?;
    refused(
        &rt,
        heap,
        &[ACCEPTS],
        &[long],
        &[COPY; 33],
        TableFault::LongOutput(0),
    )?;
    refused(
        &rt,
        heap,
        &[ACCEPTS],
        &[rule(0, 0x40), rule(0x40, 0xff)],
        &[COPY, COPY],
        TableFault::Overlap(1),
    )
}

#[test]
fn unsound_outputs(rt: HostRuntime) -> Result<(), Fail> {
    let heap = rt.alloc();
    let far = TableFault::UnsoundOutput(1, Cause::OutOfBounds);
    let unsuited = TableFault::UnsoundOutput(0, Cause::NotSuiting);
    let up = RangeTerm::Shift(32);
    refused(
        &rt,
        heap,
        &[ACCEPTS],
        &[rule(0, 1)],
        &[],
        TableFault::OutputCount,
    )?;
    refused(
        &rt,
        heap,
        &[CLOSES],
        &[],
        &[COPY],
        TableFault::NotConstant(0),
    )?;
    refused(
        &rt,
        heap,
        &[CLOSES],
        &[rule(0, 1)],
        &[LETTER, RangeTerm::Shift(256)],
        far,
    )?;
    refused(&rt, heap, &[ACCEPTS], &[rule(0xc0, 0xe0)], &[up], unsuited)?;
    let mut memory = shelf_of(&rt, heap, &[samples::copy()])?;
    let rules = [rule(0xc0, 0xdf)];
    let outputs = [up];
    let sound = samples::bytes(&[ACCEPTS], &rules, &outputs);
    assert_eq!(rt; file(&rt, heap, &mut memory, &sound)?, Ok(2));
    Ok(())
}

// A fault is reported with this number, place and cause.
fn reports(rt: &impl Abort, fault: Fault, number: u8, place: usize, cause: Option<Cause>) {
    let report = Report {
        number,
        place,
        cause,
        inner: None,
    };
    assert_eq!(rt; fault.report(), report);
}

#[test]
fn numbers_of_faults(rt: HostRuntime) {
    for (fault, number, place) in [
        (Fault::Misfit, 1, 0),
        (Fault::NoHolding(17), 2, 17),
        (Fault::LongText, 3, 1),
        (Fault::TooLarge, 12, 0),
        (Fault::ShortScratch(2), 13, 2),
        (Fault::Double(5), 14, 5),
        (Fault::Full, 15, 0),
        (Fault::TooShort(40), 16, 40),
    ] {
        reports(&rt, fault, number, place, None);
    }
}

#[test]
fn numbers_of_tables(rt: HostRuntime) {
    for (fault, number, place, cause) in [
        (TableFault::Limits, 3, 0, None),
        (TableFault::BadState(3), 4, 3, None),
        (TableFault::MissingState(4), 5, 4, None),
        (
            TableFault::UnsoundGuard(5, Cause::NoSymbols),
            6,
            5,
            Some(Cause::NoSymbols),
        ),
        (TableFault::LongOutput(6), 7, 6, None),
        (TableFault::OutputCount, 8, 0, None),
        (TableFault::NotConstant(7), 9, 7, None),
        (
            TableFault::UnsoundOutput(8, Cause::NotSuiting),
            10,
            8,
            Some(Cause::NotSuiting),
        ),
        (TableFault::Overlap(9), 11, 9, None),
    ] {
        reports(&rt, Fault::Draft(fault), number, place, cause);
    }
}
