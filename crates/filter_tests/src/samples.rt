// Small tables to test with.
use filter::{Outcome, TransduceFault, transduce};
use ranges::{Bytes, Range, RangeTerm};
use table::{Draft, Rule, State, TableFault};

pub const ACCEPTS: State = State { mark: 1, finals: 0 };

pub const REJECTS: State = State { mark: 0, finals: 0 };

pub const COPY: RangeTerm = RangeTerm::Shift(0);

// A rule of state 0 that stays there.
pub fn rule(low: u32, high: u32, outputs: u16) -> Rule<Range> {
    Rule {
        state: 0,
        next: 0,
        outputs,
        guard: Range { low, high },
    }
}

// The check of a table.
pub fn check_table<'a>(
    states: &'a [State],
    rules: &'a [Rule<Range>],
    outputs: &'a [RangeTerm],
) -> Result<(), TableFault> {
    let draft: Draft<'a, Bytes> = Draft {
        states,
        rules,
        outputs,
    };
    draft.check()
}

// The check of a table with one accepting state.
pub fn check_rules<'a>(
    rules: &'a [Rule<Range>],
    outputs: &'a [RangeTerm],
) -> Result<(), TableFault> {
    check_table(&[ACCEPTS], rules, outputs)
}

// A table put to a text.
pub fn use_table<'a>(
    states: &'a [State],
    rules: &'a [Rule<Range>],
    outputs: &'a [RangeTerm],
    text: &[u32],
    out: &mut [u32],
) -> Result<Outcome, TransduceFault> {
    let draft: Draft<'a, Bytes> = Draft {
        states,
        rules,
        outputs,
    };
    transduce(&draft, text, out)
}
