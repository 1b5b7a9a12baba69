// Worked cases: small filters, and what the definitions say of them, by one computed check.
#![tactic(auto)]

ghost use Rattle.std.specs.Prelude.{◌≡◌, true};
ghost use Rattle.specimens.specs.Cases.{all_hold};
ghost use Rattle.specimens.specs.Specimens.{Specimens};

// Every case passes its check, and so what it says is true.
pub fn specimens_hold() -> u8
    ensures computed { all_hold ≡ true }
    ensures stated { Specimens }
{
    0
}
