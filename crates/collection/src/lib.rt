// The collection on a shelf: what a call that puts a filter there does, and the law that no filter is kept twice.
// Each function stands for a theorem, which its contract states.
#![tactic(auto)]

ghost use Rattle.collection.specs.Filing.{OneAnswer};
ghost use Rattle.collection.specs.Law.{CollectionLaw};

use alphabet::Alphabet;

// A filing has one answer, and leaves one memory.
pub fn filings_are_determined<A: Alphabet>() -> u8
    ensures { OneAnswer A.model }
{
    0
}

// Whatever calls are made, the collection is lawful.
pub fn law_holds<A: Alphabet>() -> u8
    ensures { CollectionLaw A.model }
{
    0
}
