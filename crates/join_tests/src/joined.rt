// A join written into memory of its own.
use alphabet::Alphabet;
use join::join;
use join_pairs::Pair;
use join_ways::TooLarge;
use std::alloc::{AllocError, Global};
use table::check::{MOST_OUTPUTS, MOST_RULES, MOST_STATES};
use table::{Draft, Filter, Rule, State, TableFault};

// How long the lists for a joined filter are.
#[derive(Clone, Copy)]
pub struct Room {
    pub states: usize,
    pub rules: usize,
    pub outputs: usize,
    pub pairs: usize,
}

pub const ENOUGH: Room = Room {
    states: MOST_STATES,
    rules: MOST_RULES,
    outputs: MOST_OUTPUTS,
    pairs: MOST_STATES,
};

// Why there is no join.
#[derive(Clone, Copy, Debug, PartialEq)]
pub enum NoJoin {
    Unsound,
    TooLarge,
    NoMemory,
}

impl From<TableFault> for NoJoin {
    fn from(_fault: TableFault) -> NoJoin {
        NoJoin::Unsound
    }
}

impl From<TooLarge> for NoJoin {
    fn from(_fault: TooLarge) -> NoJoin {
        NoJoin::TooLarge
    }
}

impl From<AllocError> for NoJoin {
    fn from(_fault: AllocError) -> NoJoin {
        NoJoin::NoMemory
    }
}

// A table in memory of its own, for every alphabet: the one of the calls from C is for bytes and has contracts.
#[derive(Drop)]
pub struct Owned<A: Alphabet> {
    pub states: Vec<State>,
    pub rules: Vec<Rule<A::Guard>>,
    pub outputs: Vec<A::Term>,
}

impl<A: Alphabet> Owned<A> {
    pub fn draft(&self) -> Draft<'_, A> {
        Draft {
            states: self.states.as_slice(),
            rules: self.rules.as_slice(),
            outputs: self.outputs.as_slice(),
        }
    }
}

// Joins two filters into lists of these lengths, which begin filled with one rule and one term.
fn join_sound<'x, A: Alphabet>(
    heap: Global,
    first: &'x Filter<'x, A>,
    second: &'x Filter<'x, A>,
    room: Room,
    rule: Rule<A::Guard>,
    term: A::Term,
) -> Result<Owned<A>, NoJoin> {
    let mut states = vec![in heap; State { mark: 0, finals: 0 }; room.states]?;
    let mut rules = vec![in heap; rule; room.rules]?;
    let mut outputs = vec![in heap; term; room.outputs]?;
    let mut pairs: Vec<Pair> = vec![in heap; (0, 0); room.pairs]?;
    let sizes = join(
        first,
        second,
        states.as_mut_slice(),
        rules.as_mut_slice(),
        outputs.as_mut_slice(),
        pairs.as_mut_slice(),
    )?;
    states.truncate(sizes.states);
    rules.truncate(sizes.rules);
    outputs.truncate(sizes.outputs);
    Ok(Owned {
        states,
        rules,
        outputs,
    })
}

// The same for any two drafts.
pub fn join_into<'x, A: Alphabet>(
    heap: Global,
    first: &'x Draft<'x, A>,
    second: &'x Draft<'x, A>,
    room: Room,
    rule: Rule<A::Guard>,
    term: A::Term,
) -> Result<Owned<A>, NoJoin> {
    let first = Filter::new(*first)?;
    let second = Filter::new(*second)?;
    join_sound(heap, &first, &second, room, rule, term)
}
