// The entries of a table, and a draft: a view of its three lists.
ghost use Rattle.std.specs.Prelude.{◌≡◌, ℕ};

use alphabet::Alphabet;

// A state: the mark says whether it rejects (0) or accepts (1) at the end of a text; the count is that of its final
// outputs. The mark is a number, since a caller's list may hold any, and the check has to name it.
#[derive(Clone, Copy, Debug, PartialEq)]
pub struct State {
    pub mark: u8,
    pub finals: u16,
}

// A rule: in its state, on a symbol that its guard holds, it writes the values of its outputs and goes to the next state.
#[derive(Clone, Copy, Debug, PartialEq)]
pub struct Rule<G> {
    pub state: u16,
    pub next: u16,
    pub outputs: u16,
    pub guard: G,
}

// What owns a stretch of the output list: a state its final outputs, a rule its outputs.
pub trait Owner: Copy {
    // How many outputs it owns.
    ghost count: { Self → ℕ };

    fn outputs(self) -> u16
        ensures { result ≡ count self };
}

impl Owner for State {
    ghost count = { λ s. s.finals };

    fn outputs(self) -> u16 {
        self.finals
    }
}

impl<G: Copy> Owner for Rule<G> {
    ghost count = { λ r. r.outputs };

    fn outputs(self) -> u16 {
        self.outputs
    }
}

// A draft: any three lists. Outputs are the final outputs of all states, by state, then those of all rules, by rule.
#[derive_where(Clone, Copy)]
pub struct Draft<'a, A: Alphabet> {
    pub states: &'a [State],
    pub rules: &'a [Rule<A::Guard>],
    pub outputs: &'a [A::Term],
}
