// Memory that a caller lends a call to work in. What it holds afterwards is not said. The calls take it apart and hand on
// its slices: the borrow checker does not cover a parameter that holds `&mut` slices and is passed on whole.
use alphabet::Alphabet;
use join_pairs::Pair;
use steps::Step;
use table::{Rule, State};

// Scratch for comparing filters.
#[derive(Drop)]
pub struct Scratch<'s> {
    pub steps: &'s mut [Step],
    pub symbols: &'s mut [u32],
}

// Lists for a joined filter and its pairs of states.
#[derive(Drop)]
pub struct JoinLists<'l, A: Alphabet> {
    pub states: &'l mut [State],
    pub rules: &'l mut [Rule<A::Guard>],
    pub outputs: &'l mut [A::Term],
    pub pairs: &'l mut [Pair],
}
