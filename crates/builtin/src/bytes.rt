// Filters over bytes.
ghost use Rattle.std.specs.Prelude.{◌≡◌};
ghost use Rattle.table.specs.Table.{table_of};
ghost use Rattle.builtin.specs.Bytes.{escape_table, lower_table, ascii_table, escaped, lowered, same, is_byte, is_printable, Maps};

use ranges::{Bytes, Range, RangeTerm};
use table::{Draft, Rule, State};

static ONE_STATE: [State; 1] = [State { mark: 1, finals: 0 }];

static ESCAPE_RULES: [Rule<Range>; 3] = [
    Rule {
        state: 0,
        next: 0,
        outputs: 1,
        guard: Range {
            low: 0x00,
            high: 0x25,
        },
    },
    Rule {
        state: 0,
        next: 0,
        outputs: 5,
        guard: Range {
            low: 0x26,
            high: 0x26,
        },
    },
    Rule {
        state: 0,
        next: 0,
        outputs: 1,
        guard: Range {
            low: 0x27,
            high: 0xff,
        },
    },
];

static ESCAPE_OUTPUTS: [RangeTerm; 7] = [
    RangeTerm::Shift(0),
    RangeTerm::Constant(0x26),
    RangeTerm::Constant(0x61),
    RangeTerm::Constant(0x6d),
    RangeTerm::Constant(0x70),
    RangeTerm::Constant(0x3b),
    RangeTerm::Shift(0),
];

static LOWER_RULES: [Rule<Range>; 3] = [
    Rule {
        state: 0,
        next: 0,
        outputs: 1,
        guard: Range {
            low: 0x00,
            high: 0x40,
        },
    },
    Rule {
        state: 0,
        next: 0,
        outputs: 1,
        guard: Range {
            low: 0x41,
            high: 0x5a,
        },
    },
    Rule {
        state: 0,
        next: 0,
        outputs: 1,
        guard: Range {
            low: 0x5b,
            high: 0xff,
        },
    },
];

static LOWER_OUTPUTS: [RangeTerm; 3] = [
    RangeTerm::Shift(0),
    RangeTerm::Shift(32),
    RangeTerm::Shift(0),
];

static ASCII_RULES: [Rule<Range>; 1] = [Rule {
    state: 0,
    next: 0,
    outputs: 1,
    guard: Range {
        low: 0x20,
        high: 0x7e,
    },
}];

static ASCII_OUTPUTS: [RangeTerm; 1] = [RangeTerm::Shift(0)];

// Writes `&amp;` for an ampersand and copies every other byte. It and the next two differ in their tables alone, but each
// has a contract of its own on what its table does.
pub fn escape() -> Draft<'static, Bytes>
    ensures table { table_of result ≡ escape_table }
    ensures means { Maps (table_of result) is_byte escaped }
{
    Draft {
        states: &ONE_STATE,
        rules: &ESCAPE_RULES,
        outputs: &ESCAPE_OUTPUTS,
    }
}

// Writes the small letter for a capital and copies every other byte.
pub fn lower() -> Draft<'static, Bytes>
    ensures table { table_of result ≡ lower_table }
    ensures means { Maps (table_of result) is_byte lowered }
{
    Draft {
        states: &ONE_STATE,
        rules: &LOWER_RULES,
        outputs: &LOWER_OUTPUTS,
    }
}

// Copies printable ASCII and rejects a note with any other byte.
pub fn ascii() -> Draft<'static, Bytes>
    ensures table { table_of result ≡ ascii_table }
    ensures means { Maps (table_of result) is_printable same }
{
    Draft {
        states: &ONE_STATE,
        rules: &ASCII_RULES,
        outputs: &ASCII_OUTPUTS,
    }
}
