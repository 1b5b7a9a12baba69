// Small filters over bytes and marks to compare. Tests of other crates have some of the same, each its own, so that a
// change for one test leaves the others what they are.
use mark_laws::{MarkSet, MarkTerm};
use marks::Marks;
use ranges::{Bytes, Range, RangeTerm};
use table::{Draft, Rule, State};

static ACCEPTING: [State; 1] = [State { mark: 1, finals: 0 }];

static CLOSING: [State; 1] = [State { mark: 1, finals: 1 }];

static REJECTING: [State; 2] = [State { mark: 0, finals: 0 }, State { mark: 0, finals: 0 }];

static DELAYING: [State; 2] = [State { mark: 1, finals: 0 }, State { mark: 1, finals: 1 }];

static LAST_ACCEPTS: [State; 3] = [
    State { mark: 0, finals: 0 },
    State { mark: 0, finals: 0 },
    State { mark: 1, finals: 0 },
];

static ALL: [Rule<Range>; 1] = [Rule {
    state: 0,
    next: 0,
    outputs: 1,
    guard: Range { low: 0, high: 0xff },
}];

static HALVES: [Rule<Range>; 2] = [
    Rule {
        state: 0,
        next: 0,
        outputs: 1,
        guard: Range {
            low: 0x80,
            high: 0xff,
        },
    },
    Rule {
        state: 0,
        next: 0,
        outputs: 1,
        guard: Range { low: 0, high: 0x7f },
    },
];

static TWO_LETTERS: [Rule<Range>; 1] = [Rule {
    state: 0,
    next: 0,
    outputs: 1,
    guard: Range {
        low: 0x61,
        high: 0x62,
    },
}];

static ONE_LETTER: [Rule<Range>; 1] = [Rule {
    state: 0,
    next: 0,
    outputs: 1,
    guard: Range {
        low: 0x61,
        high: 0x61,
    },
}];

static DELAYED: [Rule<Range>; 2] = [
    Rule {
        state: 0,
        next: 1,
        outputs: 0,
        guard: Range {
            low: 0x61,
            high: 0x61,
        },
    },
    Rule {
        state: 1,
        next: 1,
        outputs: 1,
        guard: Range {
            low: 0x61,
            high: 0x61,
        },
    },
];

static TWICE: [Rule<Range>; 3] = [
    Rule {
        state: 0,
        next: 1,
        outputs: 1,
        guard: Range {
            low: 0x61,
            high: 0x61,
        },
    },
    Rule {
        state: 0,
        next: 1,
        outputs: 2,
        guard: Range {
            low: 0x62,
            high: 0x62,
        },
    },
    Rule {
        state: 1,
        next: 2,
        outputs: 0,
        guard: Range {
            low: 0x63,
            high: 0x63,
        },
    },
];

static ONCE: [Rule<Range>; 3] = [
    Rule {
        state: 0,
        next: 1,
        outputs: 1,
        guard: Range {
            low: 0x61,
            high: 0x61,
        },
    },
    Rule {
        state: 0,
        next: 1,
        outputs: 1,
        guard: Range {
            low: 0x62,
            high: 0x62,
        },
    },
    Rule {
        state: 1,
        next: 2,
        outputs: 0,
        guard: Range {
            low: 0x63,
            high: 0x63,
        },
    },
];

static LOOP_ONCE: [Rule<Range>; 2] = [
    Rule {
        state: 0,
        next: 0,
        outputs: 1,
        guard: Range {
            low: 0x61,
            high: 0x61,
        },
    },
    Rule {
        state: 0,
        next: 1,
        outputs: 0,
        guard: Range {
            low: 0x62,
            high: 0x62,
        },
    },
];

static LOOP_TWICE: [Rule<Range>; 2] = [
    Rule {
        state: 0,
        next: 0,
        outputs: 2,
        guard: Range {
            low: 0x61,
            high: 0x61,
        },
    },
    Rule {
        state: 0,
        next: 1,
        outputs: 0,
        guard: Range {
            low: 0x62,
            high: 0x62,
        },
    },
];

static THEN_ACCEPTS: [State; 2] = [State { mark: 0, finals: 0 }, State { mark: 1, finals: 0 }];

static AROUND: [Rule<Range>; 2] = [
    Rule {
        state: 0,
        next: 1,
        outputs: 1,
        guard: Range { low: 0, high: 0xff },
    },
    Rule {
        state: 1,
        next: 0,
        outputs: 1,
        guard: Range { low: 0, high: 0xff },
    },
];

static COPIED: [RangeTerm; 2] = [RangeTerm::Shift(0), RangeTerm::Shift(0)];

static LETTER: [RangeTerm; 1] = [RangeTerm::Constant(0x61)];

static BANG: [RangeTerm; 2] = [RangeTerm::Constant(0x21), RangeTerm::Shift(0)];

static LATE: [RangeTerm; 2] = [RangeTerm::Constant(0x61), RangeTerm::Constant(0x61)];

static CROSSES: [RangeTerm; 3] = [
    RangeTerm::Constant(0x78),
    RangeTerm::Constant(0x78),
    RangeTerm::Constant(0x78),
];

static MARKS: [Rule<MarkSet>; 1] = [Rule {
    state: 0,
    next: 0,
    outputs: 1,
    guard: MarkSet {
        bits: 0x1f_ffff_ffff,
    },
}];

static DIGITS_APART: [Rule<MarkSet>; 2] = [
    Rule {
        state: 0,
        next: 0,
        outputs: 1,
        guard: MarkSet {
            bits: 0x1f_ffff_fc00,
        },
    },
    Rule {
        state: 0,
        next: 0,
        outputs: 1,
        guard: MarkSet { bits: 0x03ff },
    },
];

static SAME_MARK: [MarkTerm; 2] = [
    MarkTerm::Turn {
        factor: 1,
        offset: 0,
    },
    MarkTerm::Turn {
        factor: 1,
        offset: 0,
    },
];

static TURNED: [MarkTerm; 1] = [MarkTerm::Turn {
    factor: 2,
    offset: 1,
}];

fn bytes(
    states: &'static [State],
    rules: &'static [Rule<Range>],
    outputs: &'static [RangeTerm],
) -> Draft<'static, Bytes> {
    Draft {
        states,
        rules,
        outputs,
    }
}

pub fn copy() -> Draft<'static, Bytes> {
    bytes(&ACCEPTING, &ALL, &COPIED[0..1])
}

pub fn copy_in_halves() -> Draft<'static, Bytes> {
    bytes(&ACCEPTING, &HALVES, &COPIED)
}

pub fn copy_and_close() -> Draft<'static, Bytes> {
    bytes(&CLOSING, &ALL, &BANG)
}

pub fn copy_letters() -> Draft<'static, Bytes> {
    bytes(&ACCEPTING, &TWO_LETTERS, &COPIED[0..1])
}

pub fn one_for_both() -> Draft<'static, Bytes> {
    bytes(&ACCEPTING, &TWO_LETTERS, &LETTER)
}

pub fn copy_letter() -> Draft<'static, Bytes> {
    bytes(&ACCEPTING, &ONE_LETTER, &COPIED[0..1])
}

pub fn delayed_letter() -> Draft<'static, Bytes> {
    bytes(&DELAYING, &DELAYED, &LATE)
}

pub fn crosses_twice() -> Draft<'static, Bytes> {
    bytes(&LAST_ACCEPTS, &TWICE, &CROSSES)
}

pub fn crosses_once() -> Draft<'static, Bytes> {
    bytes(&LAST_ACCEPTS, &ONCE, &CROSSES[0..2])
}

// One symbol for each a, and accepted behind a b.
pub fn grows_by_one() -> Draft<'static, Bytes> {
    bytes(&THEN_ACCEPTS, &LOOP_ONCE, &CROSSES[0..1])
}

// Two symbols for each a, so that the lag to the other grows.
pub fn grows_by_two() -> Draft<'static, Bytes> {
    bytes(&THEN_ACCEPTS, &LOOP_TWICE, &CROSSES[0..2])
}

pub fn rejects_all() -> Draft<'static, Bytes> {
    bytes(&REJECTING, &AROUND, &COPIED)
}

pub fn rejects_at_once() -> Draft<'static, Bytes> {
    bytes(&REJECTING[0..1], &[], &[])
}

pub fn copy_marks() -> Draft<'static, Marks> {
    Draft {
        states: &ACCEPTING,
        rules: &MARKS,
        outputs: &SAME_MARK[0..1],
    }
}

pub fn copy_digits_apart() -> Draft<'static, Marks> {
    Draft {
        states: &ACCEPTING,
        rules: &DIGITS_APART,
        outputs: &SAME_MARK,
    }
}

pub fn turn_marks() -> Draft<'static, Marks> {
    Draft {
        states: &ACCEPTING,
        rules: &MARKS,
        outputs: &TURNED,
    }
}
