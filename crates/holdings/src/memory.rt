// The memory of a shelf: a head, a ledger and three lists, all of the caller.
use alphabet::Alphabet;
use table::{Rule, State};

// How many holdings there are, and how much of the lists they use.
#[derive(Clone, Copy, Debug, Default, PartialEq)]
pub struct Head {
    pub holdings: usize,
    pub states: usize,
    pub rules: usize,
    pub outputs: usize,
}

// How much of the lists one holding uses.
#[derive(Clone, Copy, Debug, PartialEq)]
pub struct Entry {
    pub states: u16,
    pub rules: u16,
    pub outputs: u16,
}

// A shelf. Its holdings stand one behind another in each list, in the order of the ledger; entries of the ledger and of
// the lists behind those in use are spare. Nothing is known of its contents: every call reads it through first.
#[derive(Drop)]
pub struct Shelf<'a, A: Alphabet> {
    pub head: Head,
    pub ledger: &'a mut [Entry],
    pub states: &'a mut [State],
    pub rules: &'a mut [Rule<A::Guard>],
    pub outputs: &'a mut [A::Term],
}
