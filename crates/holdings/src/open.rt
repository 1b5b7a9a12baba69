// Opening a shelf over the caller's memory.
ghost use Rattle.std.specs.Prelude.{◌≡◌, true};
ghost use Rattle.holdings.specs.Memory.{memory_of, fits as fitting, opened};

use crate::memory::{Entry, Head, Shelf};
use alphabet::Alphabet;
use table::{Rule, State};

impl<'a, A: Alphabet> Shelf<'a, A> {
    // A shelf without holdings. Ledger and lists may have any length and contents, and stay as they are.
    pub fn open(
        ledger: &'a mut [Entry],
        states: &'a mut [State],
        rules: &'a mut [Rule<A::Guard>],
        outputs: &'a mut [A::Term],
    ) -> Shelf<'a, A>
        ensures memory { memory_of result ≡ opened ledger.old states.old rules.old outputs.old }
        ensures fits { fitting (memory_of result) ≡ true }
    {
        Shelf {
            head: Head::default(),
            ledger,
            states,
            rules,
            outputs,
        }
    }
}
