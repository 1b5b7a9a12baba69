// How long the outputs of a table are.
ghost use Rattle.std.specs.Prelude.{◌≡◌};
ghost use Rattle.table.specs.Table.{table_of};
ghost use Rattle.replay.specs.Sizes.{longest_of};

use alphabet::Alphabet;
use table::Draft;

// The longest final output of a state or output of a rule.
pub fn longest<A: Alphabet>(draft: &Draft<'_, A>) -> usize
    ensures { result ≡ longest_of (table_of draft.now) }
{
    let finals = draft.states.iter().map(|state| state.finals as usize);
    let outputs = draft.rules.iter().map(|rule| rule.outputs as usize);
    finals.chain(outputs).fold(0, usize::max)
}
