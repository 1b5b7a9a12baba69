// The collection on a shelf: what calls that put filters there do, and the law that no filter is kept twice.
// Each function stands for a theorem, which its contract states.
#![tactic(auto)]

ghost use Rattle.shelf_law.specs.Placing.{OneAnswer};
ghost use Rattle.shelf_law.specs.Law.{CollectionLaw};

use alphabet::Alphabet;

// A sound filter put on a shelf has one answer, and leaves one memory.
pub fn placings_are_determined<A: Alphabet>() -> u8
    ensures { OneAnswer A.model }
{
    0
}

// Whatever calls are made, the collection is lawful.
pub fn law_holds<A: Alphabet>() -> u8
    ensures { CollectionLaw A.model }
{
    0
}
