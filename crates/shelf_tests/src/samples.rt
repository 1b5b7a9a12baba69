// Filters to file, join and compare, and shelves with room for them.
use crate::memory::{Memory, Room, opened};
use mark_laws::{MarkSet, MarkTerm};
use marks::Marks;
use ranges::{Bytes, Range, RangeTerm};
use std::alloc::{AllocError, Global};
use table::{Draft, Rule, State};

pub type ByteMemory = Memory<Range, RangeTerm>;

pub type MarkMemory = Memory<MarkSet, MarkTerm>;

pub const ACCEPTS: State = State { mark: 1, finals: 0 };

pub const CLOSES: State = State { mark: 1, finals: 1 };

pub const COPY: RangeTerm = RangeTerm::Shift(0);

pub const LETTER: RangeTerm = RangeTerm::Constant(0x61);

static ACCEPTING: [State; 1] = [ACCEPTS];

static DELAYING: [State; 2] = [ACCEPTS, CLOSES];

static COPIED: [RangeTerm; 2] = [COPY, COPY];

static LATE: [RangeTerm; 2] = [LETTER, LETTER];

static ALL: [Rule<Range>; 1] = [Rule {
    state: 0,
    next: 0,
    outputs: 1,
    guard: Range { low: 0, high: 0xff },
}];

static HALVES: [Rule<Range>; 2] = [
    Rule {
        state: 0,
        next: 0,
        outputs: 1,
        guard: Range {
            low: 0x80,
            high: 0xff,
        },
    },
    Rule {
        state: 0,
        next: 0,
        outputs: 1,
        guard: Range { low: 0, high: 0x7f },
    },
];

static ONE_LETTER: [Rule<Range>; 1] = [Rule {
    state: 0,
    next: 0,
    outputs: 1,
    guard: Range {
        low: 0x61,
        high: 0x61,
    },
}];

static DELAYED: [Rule<Range>; 2] = [
    Rule {
        state: 0,
        next: 1,
        outputs: 0,
        guard: Range {
            low: 0x61,
            high: 0x61,
        },
    },
    Rule {
        state: 1,
        next: 1,
        outputs: 1,
        guard: Range {
            low: 0x61,
            high: 0x61,
        },
    },
];

static MARKS: [Rule<MarkSet>; 1] = [Rule {
    state: 0,
    next: 0,
    outputs: 1,
    guard: MarkSet {
        bits: 0x1f_ffff_ffff,
    },
}];

static SAME: [MarkTerm; 1] = [MarkTerm::Turn {
    factor: 1,
    offset: 0,
}];

static THERE: [MarkTerm; 1] = [MarkTerm::Turn {
    factor: 2,
    offset: 1,
}];

static BACK: [MarkTerm; 1] = [MarkTerm::Turn {
    factor: 19,
    offset: 18,
}];

// A rule of state 0 that stays there and writes one symbol.
pub fn rule(low: u32, high: u32) -> Rule<Range> {
    Rule {
        state: 0,
        next: 0,
        outputs: 1,
        guard: Range { low, high },
    }
}

// An open shelf of bytes; its spare rules and terms are unsound.
pub fn byte_shelf(heap: Global, room: Room) -> Result<ByteMemory, AllocError> {
    opened::<Bytes>(heap, room, rule(9, 3), RangeTerm::Shift(999))
}

pub fn mark_shelf(heap: Global, room: Room) -> Result<MarkMemory, AllocError> {
    let spare = Rule {
        state: 5,
        next: 5,
        outputs: 5,
        guard: MarkSet { bits: 0 },
    };
    opened::<Marks>(heap, room, spare, MarkTerm::Constant(99))
}

pub fn bytes<'a>(
    states: &'a [State],
    rules: &'a [Rule<Range>],
    outputs: &'a [RangeTerm],
) -> Draft<'a, Bytes> {
    Draft {
        states,
        rules,
        outputs,
    }
}

// Copies every byte.
pub fn copy() -> Draft<'static, Bytes> {
    bytes(&ACCEPTING, &ALL, &COPIED[0..1])
}

pub fn copy_in_halves() -> Draft<'static, Bytes> {
    bytes(&ACCEPTING, &HALVES, &COPIED)
}

// Copies a, and rejects every other byte.
pub fn copy_letter() -> Draft<'static, Bytes> {
    bytes(&ACCEPTING, &ONE_LETTER, &COPIED[0..1])
}

// The same in two states, each a written one symbol late.
pub fn delayed_letter() -> Draft<'static, Bytes> {
    bytes(&DELAYING, &DELAYED, &LATE)
}

pub fn copy_marks() -> Draft<'static, Marks> {
    Draft {
        states: &ACCEPTING,
        rules: &MARKS,
        outputs: &SAME,
    }
}

pub fn turn_there() -> Draft<'static, Marks> {
    Draft {
        states: &ACCEPTING,
        rules: &MARKS,
        outputs: &THERE,
    }
}

pub fn turn_back() -> Draft<'static, Marks> {
    Draft {
        states: &ACCEPTING,
        rules: &MARKS,
        outputs: &BACK,
    }
}
