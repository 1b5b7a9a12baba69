// Flat entries: the tables of byte filters as a caller in another language writes them.
ghost use Rattle.std.specs.Prelude.{◌≡◌, ◌≤◌, ◌++◌, map, length, drop};
ghost use Rattle.exports.specs.Flats.{state_of, rule_of_lem, term_of, flat_state, flat_rule, flat_term};

use ranges::{Range, RangeTerm};
use table::{Rule, State};

// The mark is a number and no bool, since C callers fill it in: one over 1 is found by the check.
#[repr(C)]
#[derive(Clone, Copy)]
pub struct FlatState {
    pub mark: u8,
    pub finals: u16,
}

// The guard holds the bytes from low to high.
#[repr(C)]
#[derive(Clone, Copy)]
pub struct FlatRule {
    pub state: u16,
    pub next: u16,
    pub outputs: u16,
    pub low: u32,
    pub high: u32,
}

// A constant where the tag is 0, else a shift: three fields and no enum, since C callers fill it in.
#[repr(C)]
#[derive(Clone, Copy)]
pub struct FlatTerm {
    pub tag: u8,
    pub constant: u32,
    pub shift: i32,
}

impl From<FlatState> for State {
    ghost from_gives = { λ s r. r ≡ state_of s };

    fn from(flat: FlatState) -> State {
        State {
            mark: flat.mark,
            finals: flat.finals,
        }
    }
}

impl From<State> for FlatState {
    ghost from_gives = { λ s r. r ≡ flat_state s };

    fn from(state: State) -> FlatState {
        FlatState {
            mark: state.mark,
            finals: state.finals,
        }
    }
}

impl From<FlatRule> for Rule<Range> {
    ghost from_gives = { λ f r. r ≡ rule_of_lem f };

    fn from(flat: FlatRule) -> Rule<Range> {
        Rule {
            state: flat.state,
            next: flat.next,
            outputs: flat.outputs,
            guard: Range {
                low: flat.low,
                high: flat.high,
            },
        }
    }
}

impl From<Rule<Range>> for FlatRule {
    ghost from_gives = { λ f r. r ≡ flat_rule f };

    fn from(rule: Rule<Range>) -> FlatRule {
        FlatRule {
            state: rule.state,
            next: rule.next,
            outputs: rule.outputs,
            low: rule.guard.low,
            high: rule.guard.high,
        }
    }
}

impl From<FlatTerm> for RangeTerm {
    ghost from_gives = { λ t r. r ≡ term_of t };

    fn from(flat: FlatTerm) -> RangeTerm {
        if flat.tag == 0 {
            RangeTerm::Constant(flat.constant)
        } else {
            RangeTerm::Shift(flat.shift)
        }
    }
}

impl From<RangeTerm> for FlatTerm {
    ghost from_gives = { λ t r. r ≡ flat_term t };

    fn from(term: RangeTerm) -> FlatTerm {
        match term {
            RangeTerm::Constant(constant) => FlatTerm {
                tag: 0,
                constant,
                shift: 0,
            },
            RangeTerm::Shift(shift) => FlatTerm {
                tag: 1,
                constant: 0,
                shift,
            },
        }
    }
}

// Writes entries to the front of a list of flat ones that has room for them. By places, since after a `zip` with
// `iter_mut` nothing would be known of what the list holds.
pub fn spread<E: Copy, F: From<E> + Copy>(entries: &[E], list: &mut [F])
    requires { length entries.now ≤ length list.old }
    ensures { (f : E → F) → ((e : E) (r : F) → F.from_gives e r → r ≡ f e) → list.new ≡ map f entries.now ++ drop (length entries.now) list.old }
{
    for (i, entry) in entries.iter().enumerate() {
        list[i] = F::from(*entry);
    }
}
