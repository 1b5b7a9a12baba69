// What ways lead through.
ghost use Rattle.std.specs.Prelude.{◌≡◌};
ghost use Rattle.std.specs.List.{AllByRecursion, AllByRecursion-prop};
ghost use Rattle.std.proofs.Props.{props};
ghost use Rattle.alphabet.specs.Model.{SoundTerm};
ghost use Rattle.table.specs.Table.{final_total_of};

use alphabet::Alphabet;
use table::Filter;

// The second filter, the place of its first rule's outputs, the terms that are taken, and the number of the state whose
// rules the ways become.
#[derive(Drop)]
pub struct Course<'a, A: Alphabet> {
    pub second: &'a Filter<'a, A>,
    pub first: usize,
    pub terms: &'a [A::Term],
    pub number: u16,
    pub ghost starts: { first ≡ final_total_of second.now.draft.states.now },
    pub ghost sound: { AllByRecursion (SoundTerm A.model) terms.now } by { AllByRecursion-prop (SoundTerm A.model) (λ _. Prim.hlevel props) terms.now },
}
