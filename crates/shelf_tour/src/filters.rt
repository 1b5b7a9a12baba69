// The filters of the tour, for any alphabet.
use crate::subject::{Output, Subject};
use alphabet::Alphabet;
use std::alloc::{AllocError, Global};
use table::{Draft, Rule, State};

// Symbol 10 is written as three symbols by `Escape`, symbol 12 is the one that `Closing` adds. The filters from
// `Stateless` on are unsound; `Stretched` is only where the way there does not lead from every symbol.
#[derive(Clone, Copy)]
pub enum Filter {
    Copy,
    InParts,
    Escape,
    There,
    Back,
    Closing,
    Late,
    Twice,
    Only(u32),
    Stateless,
    Marked,
    Astray,
    Backward,
    Beyond,
    Wordy,
    Unfilled,
    OpenEnded,
    Foreign,
    Stretched,
    Overlapping,
}

pub fn name_of(filter: Filter) -> &'static str {
    match filter {
        Filter::Copy => "copy",
        Filter::InParts => "copy in parts",
        Filter::Escape => "escape",
        Filter::There => "there",
        Filter::Back => "back",
        Filter::Closing => "closing",
        Filter::Late => "late",
        Filter::Twice => "twice",
        Filter::Only(_) => "only",
        Filter::Stateless => "stateless",
        Filter::Marked => "marked",
        Filter::Astray => "astray",
        Filter::Backward => "backward",
        Filter::Beyond => "beyond",
        Filter::Wordy => "wordy",
        Filter::Unfilled => "unfilled",
        Filter::OpenEnded => "open-ended",
        Filter::Foreign => "foreign",
        Filter::Stretched => "stretched",
        Filter::Overlapping => "overlapping",
    }
}

// A table in memory of its own.
#[derive(Drop)]
pub struct Table<G: Copy, T: Copy> {
    states: Vec<State>,
    rules: Vec<Rule<G>>,
    outputs: Vec<T>,
}

// A table as a draft.
pub fn draft_of<'t, A: Alphabet>(table: &'t Table<A::Guard, A::Term>) -> Draft<'t, A> {
    Draft {
        states: table.states.as_slice(),
        rules: table.rules.as_slice(),
        outputs: table.outputs.as_slice(),
    }
}

// Where the symbols of a rule begin or end.
#[derive(Clone, Copy)]
enum Edge {
    At(u32),
    // The last symbol, the last with a way there, and the first with a way back.
    Last,
    LastThere,
    FirstBack,
    // The symbol that the filter is for.
    Own,
}

#[derive(Clone, Copy)]
enum Writes {
    Nothing,
    Same,
    Twice,
    Escaped,
    There,
    Back,
    // A number that is no symbol.
    Foreign,
    // One output more than a rule may have.
    Much,
}

// A rule, whatever the alphabet.
#[derive(Clone, Copy)]
struct Line {
    state: u16,
    next: u16,
    low: Edge,
    high: Edge,
    writes: Writes,
}

static WHOLE: [Line; 1] = [Line {
    state: 0,
    next: 0,
    low: Edge::At(0),
    high: Edge::Last,
    writes: Writes::Same,
}];

static PARTS: [Line; 2] = [
    Line {
        state: 0,
        next: 0,
        low: Edge::At(10),
        high: Edge::Last,
        writes: Writes::Same,
    },
    Line {
        state: 0,
        next: 0,
        low: Edge::At(0),
        high: Edge::At(9),
        writes: Writes::Same,
    },
];

static ESCAPING: [Line; 3] = [
    Line {
        state: 0,
        next: 0,
        low: Edge::At(0),
        high: Edge::At(9),
        writes: Writes::Same,
    },
    Line {
        state: 0,
        next: 0,
        low: Edge::At(10),
        high: Edge::At(10),
        writes: Writes::Escaped,
    },
    Line {
        state: 0,
        next: 0,
        low: Edge::At(11),
        high: Edge::Last,
        writes: Writes::Same,
    },
];

static GOING: [Line; 1] = [Line {
    state: 0,
    next: 0,
    low: Edge::At(0),
    high: Edge::LastThere,
    writes: Writes::There,
}];

static COMING: [Line; 1] = [Line {
    state: 0,
    next: 0,
    low: Edge::FirstBack,
    high: Edge::Last,
    writes: Writes::Back,
}];

static LATE: [Line; 2] = [
    Line {
        state: 0,
        next: 1,
        low: Edge::At(10),
        high: Edge::At(10),
        writes: Writes::Nothing,
    },
    Line {
        state: 1,
        next: 1,
        low: Edge::At(10),
        high: Edge::At(10),
        writes: Writes::Same,
    },
];

static TWICE: [Line; 1] = [Line {
    state: 0,
    next: 0,
    low: Edge::At(0),
    high: Edge::Last,
    writes: Writes::Twice,
}];

static ONLY: [Line; 1] = [Line {
    state: 0,
    next: 0,
    low: Edge::Own,
    high: Edge::Own,
    writes: Writes::Same,
}];

static ASTRAY: [Line; 1] = [Line {
    state: 0,
    next: 1,
    low: Edge::At(0),
    high: Edge::At(9),
    writes: Writes::Same,
}];

static BACKWARD: [Line; 1] = [Line {
    state: 0,
    next: 0,
    low: Edge::At(9),
    high: Edge::At(3),
    writes: Writes::Same,
}];

static BEYOND: [Line; 1] = [Line {
    state: 0,
    next: 0,
    low: Edge::At(9),
    high: Edge::At(u32::MAX),
    writes: Writes::Same,
}];

static WORDY: [Line; 1] = [Line {
    state: 0,
    next: 0,
    low: Edge::At(0),
    high: Edge::At(9),
    writes: Writes::Much,
}];

static FOREIGN: [Line; 1] = [Line {
    state: 0,
    next: 0,
    low: Edge::At(0),
    high: Edge::At(9),
    writes: Writes::Foreign,
}];

static STRETCHED: [Line; 1] = [Line {
    state: 0,
    next: 0,
    low: Edge::At(0),
    high: Edge::Last,
    writes: Writes::There,
}];

static OVERLAPPING: [Line; 2] = [
    Line {
        state: 0,
        next: 0,
        low: Edge::At(0),
        high: Edge::At(9),
        writes: Writes::Same,
    },
    Line {
        state: 0,
        next: 0,
        low: Edge::At(9),
        high: Edge::At(12),
        writes: Writes::Same,
    },
];

static ACCEPTING: [State; 1] = [State { mark: 1, finals: 0 }];

static CLOSING: [State; 1] = [State { mark: 1, finals: 1 }];

static DELAYING: [State; 2] = [State { mark: 1, finals: 0 }, State { mark: 1, finals: 1 }];

static MARKED: [State; 1] = [State { mark: 2, finals: 0 }];

static SAME: [Output; 33] = [Output::Same; 33];

static THREE: [Output; 3] = [Output::Symbol(10), Output::Symbol(36), Output::Symbol(12)];

static THERE: [Output; 1] = [Output::There];

static BACK: [Output; 1] = [Output::Back];

static NO_SYMBOL: [Output; 1] = [Output::Symbol(u32::MAX)];

fn lines_of(filter: Filter) -> &'static [Line] {
    match filter {
        Filter::Copy | Filter::Closing => &WHOLE,
        Filter::InParts => &PARTS,
        Filter::Escape => &ESCAPING,
        Filter::There => &GOING,
        Filter::Back => &COMING,
        Filter::Late => &LATE,
        Filter::Twice => &TWICE,
        Filter::Only(_) => &ONLY,
        Filter::Astray => &ASTRAY,
        Filter::Backward => &BACKWARD,
        Filter::Beyond => &BEYOND,
        Filter::Wordy => &WORDY,
        Filter::Foreign => &FOREIGN,
        Filter::Stretched => &STRETCHED,
        Filter::Overlapping => &OVERLAPPING,
        Filter::Stateless | Filter::Marked | Filter::Unfilled | Filter::OpenEnded => &[],
    }
}

fn states_of(filter: Filter) -> &'static [State] {
    match filter {
        Filter::Stateless => &[],
        Filter::Marked => &MARKED,
        Filter::Closing | Filter::Unfilled | Filter::OpenEnded => &CLOSING,
        Filter::Late => &DELAYING,
        _ => &ACCEPTING,
    }
}

// The final outputs.
fn finals_of(filter: Filter) -> &'static [Output] {
    match filter {
        Filter::Closing => &THREE[2..3],
        Filter::Late => &THREE[0..1],
        Filter::OpenEnded => &SAME[0..1],
        _ => &[],
    }
}

fn outputs_of(writes: Writes) -> &'static [Output] {
    match writes {
        Writes::Nothing => &[],
        Writes::Same => &SAME[0..1],
        Writes::Twice => &SAME[0..2],
        Writes::Escaped => &THREE,
        Writes::There => &THERE,
        Writes::Back => &BACK,
        Writes::Foreign => &NO_SYMBOL,
        Writes::Much => &SAME,
    }
}

fn symbol_at<A: Alphabet, S: Subject<A>>(edge: Edge, filter: Filter) -> u32 {
    match (edge, filter) {
        (Edge::At(symbol), _) => symbol,
        (Edge::Last, _) => S::last(),
        (Edge::LastThere, _) => S::last_there(),
        (Edge::FirstBack, _) => S::first_back(),
        (Edge::Own, Filter::Only(symbol)) => symbol,
        (Edge::Own, _) => 0,
    }
}

fn add_outputs<A: Alphabet, S: Subject<A>>(
    terms: &mut Vec<A::Term>,
    outputs: &[Output],
) -> Result<(), AllocError> {
    for output in outputs {
        terms.push(S::term(*output))?;
    }
    Ok(())
}

fn rule_of<A: Alphabet, S: Subject<A>>(line: Line, filter: Filter) -> Rule<A::Guard> {
    let low = symbol_at::<A, S>(line.low, filter);
    let high = symbol_at::<A, S>(line.high, filter);
    let outputs = match line.writes {
        Writes::Nothing => 0,
        Writes::Twice => 2,
        Writes::Escaped => 3,
        Writes::Much => 33,
        _ => 1,
    };
    Rule {
        state: line.state,
        next: line.next,
        outputs,
        guard: S::guard(low, high),
    }
}

pub fn build<A: Alphabet, S: Subject<A>>(
    heap: Global,
    filter: Filter,
) -> Result<Table<A::Guard, A::Term>, AllocError> {
    let states = Vec::from_slice(heap, states_of(filter))?;
    let mut rules = Vec::new(heap);
    let mut outputs = Vec::new(heap);
    add_outputs::<A, S>(&mut outputs, finals_of(filter))?;
    for line in lines_of(filter) {
        rules.push(rule_of::<A, S>(*line, filter))?;
        add_outputs::<A, S>(&mut outputs, outputs_of(line.writes))?;
    }
    Ok(Table {
        states,
        rules,
        outputs,
    })
}
