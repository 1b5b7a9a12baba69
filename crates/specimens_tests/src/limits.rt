// Tables just within a limit pass, and those just beyond it have the fault that belongs to it.
use ranges::{Bytes, Range};
use table::{Draft, FaultCode, Rule, State};

const ACCEPTING: State = State { mark: 1, finals: 0 };

// A rule of state 0 that stays there and writes nothing.
fn rule(low: u32, high: u32) -> Rule<Range> {
    Rule {
        state: 0,
        next: 0,
        outputs: 0,
        guard: Range { low, high },
    }
}

// The first fault of the filter with these states and rules, or none.
fn fault<'a>(states: &'a [State], rules: &'a [Rule<Range>]) -> Option<FaultCode> {
    let draft: Draft<'a, Bytes> = Draft {
        states,
        rules,
        outputs: &[],
    };
    match draft.check() {
        Ok(()) => None,
        Err(fault) => Some(fault.code()),
    }
}

#[test]
fn rules_that_meet(rt: HostRuntime) {
    let overlap = FaultCode {
        number: 11,
        place: 1,
        cause: None,
    };
    assert_eq!(rt;
        fault(&[ACCEPTING], &[rule(0x00, 0x40), rule(0x40, 0xff)]),
        Some(overlap)
    );
    assert_eq!(rt;
        fault(&[ACCEPTING], &[rule(0x00, 0x40), rule(0x41, 0xff)]),
        None
    );
}

#[test]
fn states_in_number(rt: HostRuntime) {
    let limits = FaultCode {
        number: 3,
        place: 0,
        cause: None,
    };
    assert_eq!(rt; fault(&[ACCEPTING; 64], &[]), None);
    assert_eq!(rt; fault(&[ACCEPTING; 65], &[]), Some(limits));
}
