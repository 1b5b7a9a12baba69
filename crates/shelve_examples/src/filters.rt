// The filters of the examples. Where tests have the like, each has its own, so that no test decides what a file holds.
use builtin::{bytes, shelf_marks};
use marks::{MarkSet, MarkTerm, Marks};
use ranges::{Bytes, CodePoints, Range, RangeTerm};
use table::{Draft, Rule, State};

static ONE_STATE: [State; 1] = [State { mark: 1, finals: 0 }];

static ALL: [Rule<Range>; 1] = [Rule {
    state: 0,
    next: 0,
    outputs: 1,
    guard: Range { low: 0, high: 0xff },
}];

static HALVES: [Rule<Range>; 2] = [
    Rule {
        state: 0,
        next: 0,
        outputs: 1,
        guard: Range { low: 0, high: 0x7f },
    },
    Rule {
        state: 0,
        next: 0,
        outputs: 1,
        guard: Range {
            low: 0x80,
            high: 0xff,
        },
    },
];

static ALL_POINTS: [Rule<Range>; 1] = [Rule {
    state: 0,
    next: 0,
    outputs: 1,
    guard: Range {
        low: 0,
        high: 0x10ffff,
    },
}];

static GREEK: [Rule<Range>; 3] = [
    Rule {
        state: 0,
        next: 0,
        outputs: 1,
        guard: Range {
            low: 0,
            high: 0x0390,
        },
    },
    Rule {
        state: 0,
        next: 0,
        outputs: 1,
        guard: Range {
            low: 0x0391,
            high: 0x03a9,
        },
    },
    Rule {
        state: 0,
        next: 0,
        outputs: 1,
        guard: Range {
            low: 0x03aa,
            high: 0x10ffff,
        },
    },
];

static GREEK_SPLIT: [Rule<Range>; 4] = [
    Rule {
        state: 0,
        next: 0,
        outputs: 1,
        guard: Range {
            low: 0x0391,
            high: 0x03a0,
        },
    },
    Rule {
        state: 0,
        next: 0,
        outputs: 1,
        guard: Range {
            low: 0x03a1,
            high: 0x03a9,
        },
    },
    Rule {
        state: 0,
        next: 0,
        outputs: 1,
        guard: Range {
            low: 0,
            high: 0x0390,
        },
    },
    Rule {
        state: 0,
        next: 0,
        outputs: 1,
        guard: Range {
            low: 0x03aa,
            high: 0x10ffff,
        },
    },
];

static COPY: [RangeTerm; 1] = [RangeTerm::Shift(0)];

static COPY_TWO: [RangeTerm; 2] = [RangeTerm::Shift(0), RangeTerm::Shift(0)];

static SMALL: [RangeTerm; 3] = [
    RangeTerm::Shift(0),
    RangeTerm::Shift(32),
    RangeTerm::Shift(0),
];

static SMALL_SPLIT: [RangeTerm; 4] = [
    RangeTerm::Shift(32),
    RangeTerm::Shift(32),
    RangeTerm::Shift(0),
    RangeTerm::Shift(0),
];

static ALL_MARKS: [Rule<MarkSet>; 1] = [Rule {
    state: 0,
    next: 0,
    outputs: 1,
    guard: MarkSet {
        bits: 0x1f_ffff_ffff,
    },
}];

static THERE: [MarkTerm; 1] = [MarkTerm::Turn {
    factor: 2,
    offset: 1,
}];

static BACK: [MarkTerm; 1] = [MarkTerm::Turn {
    factor: 19,
    offset: 18,
}];

static SAME: [MarkTerm; 1] = [MarkTerm::Turn {
    factor: 1,
    offset: 0,
}];

pub fn escape() -> Draft<'static, Bytes> {
    bytes::escape()
}

pub fn copy() -> Draft<'static, Bytes> {
    Draft {
        states: &ONE_STATE,
        rules: &ALL,
        outputs: &COPY,
    }
}

pub fn copy_split() -> Draft<'static, Bytes> {
    Draft {
        states: &ONE_STATE,
        rules: &HALVES,
        outputs: &COPY_TWO,
    }
}

pub fn copy_points() -> Draft<'static, CodePoints> {
    Draft {
        states: &ONE_STATE,
        rules: &ALL_POINTS,
        outputs: &COPY,
    }
}

pub fn greek() -> Draft<'static, CodePoints> {
    Draft {
        states: &ONE_STATE,
        rules: &GREEK,
        outputs: &SMALL,
    }
}

pub fn greek_split() -> Draft<'static, CodePoints> {
    Draft {
        states: &ONE_STATE,
        rules: &GREEK_SPLIT,
        outputs: &SMALL_SPLIT,
    }
}

pub fn public_form() -> Draft<'static, Marks> {
    shelf_marks::public_form()
}

fn marks(outputs: &'static [MarkTerm]) -> Draft<'static, Marks> {
    Draft {
        states: &ONE_STATE,
        rules: &ALL_MARKS,
        outputs,
    }
}

pub fn turn_there() -> Draft<'static, Marks> {
    marks(&THERE)
}

pub fn turn_back() -> Draft<'static, Marks> {
    marks(&BACK)
}

pub fn copy_marks() -> Draft<'static, Marks> {
    marks(&SAME)
}
