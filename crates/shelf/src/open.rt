// Opening a shelf.
ghost use Rattle.std.specs.Prelude.{◌≡◌, []};
ghost use Rattle.holdings.specs.Memory.{memory_of, opened};
ghost use Rattle.shelf_law.specs.History.{Reached};
ghost use Rattle.shelf_law.specs.Law.{Law};

use alphabet::Alphabet;
use holdings::{Entry, Shelf};
use table::{Rule, State};

// A shelf without holdings: the beginning of every history. Ledger and lists may have any length and contents, and stay
// as they are.
pub fn open<'a, A: Alphabet>(
    ledger: &'a mut [Entry],
    states: &'a mut [State],
    rules: &'a mut [Rule<A::Guard>],
    outputs: &'a mut [A::Term],
) -> Shelf<'a, A>
    ensures memory { memory_of result ≡ opened ledger.old states.old rules.old outputs.old }
    ensures begins { Reached A.model [] (memory_of result) }
    ensures law { Law A.model [] (memory_of result) }
{
    Shelf::open(ledger, states, rules, outputs)
}
