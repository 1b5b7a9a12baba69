// The first fault of a table: each number with its place, and the order where two are present.
use crate::samples::{ACCEPTS, COPY, REJECTS, check_rules, check_table, rule};
use alphabet::Cause;
use ranges::{Range, RangeTerm};
use table::{FaultCode, Rule, State, TableFault};

#[test]
fn limits(rt: HostRuntime) {
    assert_eq!(rt; check_table(&[], &[], &[]), Err(TableFault::Limits));
    assert_eq!(rt; check_table(&[REJECTS; 64], &[], &[]), Ok(()));
    assert_eq!(rt;
        check_table(&[REJECTS; 65], &[], &[]),
        Err(TableFault::Limits)
    );
    assert_eq!(rt;
        check_table(&[ACCEPTS], &[rule(0, 0, 0); 1025], &[]),
        Err(TableFault::Limits)
    );
    assert_eq!(rt;
        check_table(&[ACCEPTS], &[rule(0, 0, 0); 1024], &[]),
        Err(TableFault::Overlap(1))
    );
    assert_eq!(rt; check_rules(&[], &[COPY; 4097]), Err(TableFault::Limits));
    assert_eq!(rt;
        check_rules(&[], &[COPY; 4096]),
        Err(TableFault::OutputCount)
    );
}

#[test]
fn states(rt: HostRuntime) {
    let strange = State { mark: 2, finals: 0 };
    let long = State {
        mark: 1,
        finals: 33,
    };
    let writing = State { mark: 0, finals: 1 };
    assert_eq!(rt;
        check_table(&[ACCEPTS, strange], &[], &[]),
        Err(TableFault::BadState(1))
    );
    assert_eq!(rt;
        check_table(&[long], &[], &[COPY; 33]),
        Err(TableFault::BadState(0))
    );
    assert_eq!(rt;
        check_table(&[ACCEPTS, REJECTS, writing], &[], &[COPY]),
        Err(TableFault::BadState(2))
    );
}

#[test]
fn rules(rt: HostRuntime) {
    let away = Rule {
        state: 0,
        next: 1,
        outputs: 0,
        guard: Range { low: 0, high: 0 },
    };
    let none = rule(2, 1, 0);
    let beyond = rule(0, 256, 0);
    let both = rule(300, 299, 0);
    assert_eq!(rt;
        check_rules(&[rule(9, 9, 0), away], &[]),
        Err(TableFault::MissingState(1))
    );
    assert_eq!(rt;
        check_rules(&[none], &[]),
        Err(TableFault::UnsoundGuard(0, Cause::NoSymbols))
    );
    assert_eq!(rt;
        check_rules(&[beyond], &[]),
        Err(TableFault::UnsoundGuard(0, Cause::BeyondSize))
    );
    assert_eq!(rt;
        check_rules(&[both], &[]),
        Err(TableFault::UnsoundGuard(0, Cause::NoSymbols))
    );
    assert_eq!(rt;
        check_rules(&[rule(0, 0, 33)], &[COPY; 33]),
        Err(TableFault::LongOutput(0))
    );
    assert_eq!(rt; check_rules(&[rule(0, 0, 32)], &[COPY; 32]), Ok(()));
    assert_eq!(rt;
        check_rules(&[rule(0, 0, 1)], &[COPY; 2]),
        Err(TableFault::OutputCount)
    );
    assert_eq!(rt;
        check_rules(&[rule(0, 0, 1)], &[]),
        Err(TableFault::OutputCount)
    );
}

#[test]
fn outputs(rt: HostRuntime) {
    let closing = State { mark: 1, finals: 1 };
    let far = RangeTerm::Constant(256);
    let shift = RangeTerm::Shift(256);
    let up = RangeTerm::Shift(32);
    let beyond = Err(TableFault::UnsoundOutput(0, Cause::OutOfBounds));
    assert_eq!(rt;
        check_table(&[closing], &[], &[COPY]),
        Err(TableFault::NotConstant(0))
    );
    assert_eq!(rt; check_table(&[closing], &[], &[far]), beyond);
    assert_eq!(rt; check_rules(&[rule(0, 0, 1)], &[shift]), beyond);
    assert_eq!(rt; check_rules(&[rule(0xc0, 0xdf, 1)], &[up]), Ok(()));
    let unsuited = Err(TableFault::UnsoundOutput(1, Cause::NotSuiting));
    assert_eq!(rt;
        check_rules(&[rule(0, 1, 1), rule(0xc0, 0xe0, 1)], &[COPY, up]),
        unsuited
    );
}

#[test]
fn overlaps(rt: HostRuntime) {
    assert_eq!(rt;
        check_rules(&[rule(0, 0x40, 0), rule(0x40, 0xff, 0)], &[]),
        Err(TableFault::Overlap(1))
    );
    assert_eq!(rt;
        check_rules(&[rule(0, 0x40, 0), rule(0x41, 0xff, 0)], &[]),
        Ok(())
    );
    let elsewhere = Rule {
        state: 1,
        next: 0,
        outputs: 0,
        guard: Range { low: 0, high: 255 },
    };
    assert_eq!(rt;
        check_table(&[ACCEPTS, ACCEPTS], &[rule(0, 255, 0), elsewhere], &[]),
        Ok(())
    );
    let three = [rule(0, 9, 0), rule(20, 29, 0), rule(25, 40, 0)];
    assert_eq!(rt; check_rules(&three, &[]), Err(TableFault::Overlap(2)));
}

#[test]
fn order(rt: HostRuntime) {
    let strange = State { mark: 2, finals: 0 };
    let none = rule(2, 1, 33);
    let closing = State { mark: 1, finals: 1 };
    assert_eq!(rt;
        check_table(&[strange; 65], &[], &[]),
        Err(TableFault::Limits)
    );
    assert_eq!(rt;
        check_table(&[strange], &[none], &[]),
        Err(TableFault::BadState(0))
    );
    assert_eq!(rt;
        check_rules(&[none], &[]),
        Err(TableFault::UnsoundGuard(0, Cause::NoSymbols))
    );
    assert_eq!(rt;
        check_rules(&[rule(0, 0, 33), none], &[]),
        Err(TableFault::LongOutput(0))
    );
    assert_eq!(rt;
        check_rules(&[rule(0, 9, 1), rule(5, 9, 1)], &[COPY]),
        Err(TableFault::OutputCount)
    );
    let overlapping = [rule(0, 9, 1), rule(5, 9, 1)];
    let far = RangeTerm::Constant(999);
    let beyond = Err(TableFault::UnsoundOutput(2, Cause::OutOfBounds));
    assert_eq!(rt;
        check_table(&[closing], &overlapping, &[COPY, far, far]),
        Err(TableFault::NotConstant(0))
    );
    let constant = RangeTerm::Constant(7);
    assert_eq!(rt;
        check_table(&[closing], &overlapping, &[constant, COPY, far]),
        beyond
    );
    assert_eq!(rt;
        check_table(&[closing], &overlapping, &[constant, COPY, COPY]),
        Err(TableFault::Overlap(1))
    );
}

#[test]
fn codes(rt: HostRuntime) {
    let plain = TableFault::BadState(7).code();
    assert_eq!(rt;
        plain,
        FaultCode {
            number: 4,
            place: 7,
            cause: None,
        }
    );
    let guard = TableFault::UnsoundGuard(5, Cause::BeyondSize).code();
    assert_eq!(rt;
        guard,
        FaultCode {
            number: 6,
            place: 5,
            cause: Some(Cause::BeyondSize),
        }
    );
    assert_eq!(rt; Cause::NotSuiting.number(), 4);
}
