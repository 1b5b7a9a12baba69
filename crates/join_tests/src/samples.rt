// Filters to join. Tests of other crates have some of the same, each its own, so that a change for one test leaves the
// others what they are.
use mark_laws::{MarkSet, MarkTerm};
use marks::Marks;
use ranges::{Bytes, Range, RangeTerm};
use table::{Draft, Rule, State};

static ACCEPTING: [State; 1] = [State { mark: 1, finals: 0 }];

static REJECTING: [State; 1] = [State { mark: 0, finals: 0 }];

static CLOSING: [State; 1] = [State { mark: 1, finals: 1 }];

static ALL_DROPPED: [Rule<Range>; 1] = [Rule {
    state: 0,
    next: 0,
    outputs: 0,
    guard: Range { low: 0, high: 0xff },
}];

static ALL_COPIED: [Rule<Range>; 1] = [Rule {
    state: 0,
    next: 0,
    outputs: 1,
    guard: Range { low: 0, high: 0xff },
}];

static DIGITS_ONLY: [Rule<Range>; 1] = [Rule {
    state: 0,
    next: 0,
    outputs: 1,
    guard: Range {
        low: 0x30,
        high: 0x39,
    },
}];

static PAIRED: [Rule<Range>; 1] = [Rule {
    state: 0,
    next: 0,
    outputs: 2,
    guard: Range {
        low: 0x30,
        high: 0x41,
    },
}];

static TWO_CONSTANTS: [RangeTerm; 2] = [RangeTerm::Constant(0x61), RangeTerm::Constant(0x62)];

static LETTER_A: [Rule<Range>; 1] = [Rule {
    state: 0,
    next: 0,
    outputs: 1,
    guard: Range {
        low: 0x61,
        high: 0x61,
    },
}];

static COPY_TWICE: [RangeTerm; 2] = [RangeTerm::Shift(0), RangeTerm::Shift(0)];

static CLOSE_AMPERSAND: [RangeTerm; 2] = [RangeTerm::Constant(0x26), RangeTerm::Shift(0)];

static ALL_MARKS: [Rule<MarkSet>; 1] = [Rule {
    state: 0,
    next: 0,
    outputs: 1,
    guard: MarkSet {
        bits: 0x1f_ffff_ffff,
    },
}];

static THERE: [MarkTerm; 1] = [MarkTerm::Turn {
    factor: 2,
    offset: 1,
}];

static BACK: [MarkTerm; 1] = [MarkTerm::Turn {
    factor: 19,
    offset: 18,
}];

static SAME: [MarkTerm; 1] = [MarkTerm::Turn {
    factor: 1,
    offset: 0,
}];

// A rule and a term to fill lists with.
pub const BYTE_RULE: Rule<Range> = Rule {
    state: 0,
    next: 0,
    outputs: 0,
    guard: Range { low: 0, high: 0 },
};

pub const BYTE_TERM: RangeTerm = RangeTerm::Shift(0);

pub const MARK_RULE: Rule<MarkSet> = Rule {
    state: 0,
    next: 0,
    outputs: 0,
    guard: MarkSet { bits: 1 },
};

pub const MARK_TERM: MarkTerm = MarkTerm::Constant(0);

fn bytes(
    states: &'static [State],
    rules: &'static [Rule<Range>],
    outputs: &'static [RangeTerm],
) -> Draft<'static, Bytes> {
    Draft {
        states,
        rules,
        outputs,
    }
}

pub fn drop_all() -> Draft<'static, Bytes> {
    bytes(&ACCEPTING, &ALL_DROPPED, &[])
}

pub fn drop_and_reject() -> Draft<'static, Bytes> {
    bytes(&REJECTING, &ALL_DROPPED, &[])
}

pub fn copy_and_close() -> Draft<'static, Bytes> {
    bytes(&CLOSING, &ALL_COPIED, &CLOSE_AMPERSAND)
}

pub fn copy_digits() -> Draft<'static, Bytes> {
    bytes(&ACCEPTING, &DIGITS_ONLY, &COPY_TWICE[0..1])
}

pub fn write_twice() -> Draft<'static, Bytes> {
    bytes(&ACCEPTING, &PAIRED, &COPY_TWICE)
}

// Writes a and then b.
pub fn write_two() -> Draft<'static, Bytes> {
    bytes(&ACCEPTING, &PAIRED, &TWO_CONSTANTS)
}

// Takes a alone.
pub fn copy_a() -> Draft<'static, Bytes> {
    bytes(&ACCEPTING, &LETTER_A, &COPY_TWICE[0..1])
}

pub fn turn_there() -> Draft<'static, Marks> {
    Draft {
        states: &ACCEPTING,
        rules: &ALL_MARKS,
        outputs: &THERE,
    }
}

pub fn turn_back() -> Draft<'static, Marks> {
    Draft {
        states: &ACCEPTING,
        rules: &ALL_MARKS,
        outputs: &BACK,
    }
}

pub fn copy_marks() -> Draft<'static, Marks> {
    Draft {
        states: &ACCEPTING,
        rules: &ALL_MARKS,
        outputs: &SAME,
    }
}
