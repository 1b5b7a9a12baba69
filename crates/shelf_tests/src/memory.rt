// A shelf in memory of its own, which can be copied and compared whole.
use alphabet::Alphabet;
use holdings::{Entry, Head, Shelf};
use shelf::open::open;
use std::alloc::{AllocError, Global};
use table::{Rule, State};

// How long a ledger and three lists are.
#[derive(Clone, Copy)]
pub struct Room {
    pub ledger: usize,
    pub states: usize,
    pub rules: usize,
    pub outputs: usize,
}

pub const WIDE: Room = Room {
    ledger: 20,
    states: 40,
    rules: 60,
    outputs: 90,
};

// The rule and the term are what spare entries are filled with.
#[derive(Drop)]
pub struct Memory<G: Copy, T: Copy> {
    pub head: Head,
    pub ledger: Vec<Entry>,
    pub states: Vec<State>,
    pub rules: Vec<Rule<G>>,
    pub outputs: Vec<T>,
    pub rule: Rule<G>,
    pub term: T,
}

// Spare entries that are no entries of a sound filter.
const SPARE_ENTRY: Entry = Entry {
    states: 7,
    rules: 7,
    outputs: 7,
};

const SPARE_STATE: State = State { mark: 9, finals: 9 };

// One item some times.
pub fn filled<T: Copy>(heap: Global, item: T, count: usize) -> Result<Vec<T>, AllocError> {
    Ok(vec![in heap; item; count]?)
}

// A shelf that was opened over lists of these lengths.
pub fn opened<A: Alphabet>(
    heap: Global,
    room: Room,
    rule: Rule<A::Guard>,
    term: A::Term,
) -> Result<Memory<A::Guard, A::Term>, AllocError> {
    let mut ledger = filled(heap, SPARE_ENTRY, room.ledger)?;
    let mut states = filled(heap, SPARE_STATE, room.states)?;
    let mut rules = filled(heap, rule, room.rules)?;
    let mut outputs = filled(heap, term, room.outputs)?;
    let shelf: Shelf<'_, A> = open(
        ledger.as_mut_slice(),
        states.as_mut_slice(),
        rules.as_mut_slice(),
        outputs.as_mut_slice(),
    );
    let Shelf {
        head,
        ledger: _,
        states: _,
        rules: _,
        outputs: _,
    } = shelf;
    Ok(Memory {
        head,
        ledger,
        states,
        rules,
        outputs,
        rule,
        term,
    })
}

impl<G: Copy + PartialEq, T: Copy + PartialEq> Memory<G, T> {
    pub fn copy(&self, heap: Global) -> Result<Memory<G, T>, AllocError> {
        Ok(Memory {
            head: self.head,
            ledger: Vec::from_slice(heap, self.ledger.as_slice())?,
            states: Vec::from_slice(heap, self.states.as_slice())?,
            rules: Vec::from_slice(heap, self.rules.as_slice())?,
            outputs: Vec::from_slice(heap, self.outputs.as_slice())?,
            rule: self.rule,
            term: self.term,
        })
    }

    pub fn is_same(&self, other: &Memory<G, T>) -> bool {
        self.head == other.head
            && self.ledger.as_slice() == other.ledger.as_slice()
            && self.states.as_slice() == other.states.as_slice()
            && self.rules.as_slice() == other.rules.as_slice()
            && self.outputs.as_slice() == other.outputs.as_slice()
    }
}

// Whether two lists are the same but for the places from one up to another.
fn same_around<T: PartialEq>(one: &[T], other: &[T], from: usize, to: usize) -> bool {
    if one.len() != other.len() {
        return false;
    }
    for (place, (left, right)) in one.iter().zip(other.iter()).enumerate() {
        if (place < from || to <= place) && *left != *right {
            return false;
        }
    }
    true
}

impl<G: Copy + PartialEq, T: Copy + PartialEq> Memory<G, T> {
    // Whether this is another memory with one more holding behind the others, and nothing else changed.
    pub fn has_one_more(&self, before: &Memory<G, T>) -> bool {
        let (old, new) = (before.head, self.head);
        let Some(entry) = self.ledger.as_slice().get(old.holdings) else {
            return false;
        };
        let entry = *entry;
        old.holdings < new.holdings
            && new.holdings - old.holdings == 1
            && old.states.checked_add(entry.states as usize) == Some(new.states)
            && old.rules.checked_add(entry.rules as usize) == Some(new.rules)
            && old.outputs.checked_add(entry.outputs as usize) == Some(new.outputs)
            && same_around(
                self.ledger.as_slice(),
                before.ledger.as_slice(),
                old.holdings,
                new.holdings,
            )
            && self.has_lists_of(before)
    }

    // Whether the lists are those of another memory but for what the head has more.
    fn has_lists_of(&self, before: &Memory<G, T>) -> bool {
        let (old, new) = (before.head, self.head);
        same_around(
            self.states.as_slice(),
            before.states.as_slice(),
            old.states,
            new.states,
        ) && same_around(
            self.rules.as_slice(),
            before.rules.as_slice(),
            old.rules,
            new.rules,
        ) && same_around(
            self.outputs.as_slice(),
            before.outputs.as_slice(),
            old.outputs,
            new.outputs,
        )
    }
}
