// The joined filter of two filters: what it is, that it is their composition, and that it stays sound.
// Each function stands for a theorem, which its contract states.
#![tactic(auto)]

ghost use Rattle.table.specs.Table.{table_of};
ghost use Rattle.join_laws.specs.Theorems.{WaysRun, Joins};

use alphabet::Alphabet;
use table::Filter;

// A state of the first filter and one of the second. A tuple and no struct: the laws speak of pairs of numbers.
pub type Pair = (u16, u16);

// The first way that holds a symbol is the second filter's run.
pub fn ways_run<A: Alphabet>(second: &Filter<'_, A>) -> u8
    ensures { WaysRun A.model (table_of second.now.draft) }
{
    0
}

// The joined filter composes two sound filters.
pub fn joined_composes<A: Alphabet>(first: &Filter<'_, A>, second: &Filter<'_, A>) -> u8
    ensures { Joins A.model (table_of first.now.draft) (table_of second.now.draft) }
{
    0
}
