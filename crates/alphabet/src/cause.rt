// Why a guard or a term is unsound.
ghost use Rattle.std.specs.Prelude.{◌≡◌};
ghost use Rattle.alphabet.specs.Causes.{cause_number};

// The causes in the order in which they are looked for; the lowest that applies is the one given.
#[derive(Clone, Copy, Debug, PartialEq)]
pub enum Cause {
    // The guard holds no symbol.
    NoSymbols = 1,
    // The guard holds a number that is no symbol.
    BeyondSize = 2,
    // A number of the term lies outside its bounds.
    OutOfBounds = 3,
    // The term is sound, but has no value at some symbol of its guard.
    NotSuiting = 4,
}

impl Cause {
    // The number by which the cause is reported. A method, since `u8::from` would not say which number it is.
    pub fn number(self) -> u8
        ensures { result ≡ cause_number self }
    {
        self as u8
    }
}
