// Alphabets: what a filter has to know of its symbols, as one trait with one method for each question.
#![tactic(auto)]

ghost use Rattle.std.specs.Prelude.{◌≡◌, ◌<◌, Ok};
ghost use Rattle.alphabet.specs.Model.{Model, SoundGuard, SoundTerm};
ghost use Rattle.alphabet.specs.Questions.{LeastFrom, LeastOutside, suits as fits_all, constant_of, both};
ghost use Rattle.alphabet.specs.Laws.{Lawful};

pub mod cause;

pub use cause::Cause;

// An alphabet. A symbol is a number below its size, a guard a set of symbols, a term a function from some symbols to
// symbols. Guards and terms may hold any numbers: the two checks say which are sound, and the other questions are put
// to sound ones.
pub trait Alphabet {
    type Guard: Copy;

    type Term: Copy;

    // What the guards and terms mean.
    ghost model: { Model Self.Guard Self.Term };

    // That they mean what an alphabet's must.
    ghost laws: { Lawful model };

    // Whether a guard is sound, else the lowest cause.
    fn check_guard(guard: Self::Guard) -> Result<(), Cause>
        ensures { result ≡ model.check_guard guard };

    // Whether the guard holds the symbol.
    fn holds(guard: Self::Guard, symbol: u32) -> bool
        requires sound { SoundGuard model guard }
        ensures { result ≡ model.holds guard symbol };

    // The least symbol of the guard at or after a number.
    fn first_inside(guard: Self::Guard, from: u32) -> Option<u32>
        requires sound { SoundGuard model guard }
        ensures { LeastFrom (model.holds guard) from result };

    // The least number at or after a number that the guard does not hold.
    fn first_outside(guard: Self::Guard, from: u32) -> u32
        requires sound { SoundGuard model guard }
        ensures { LeastOutside (model.holds guard) from result };

    // Whether a term is sound, else the cause.
    fn check_term(term: Self::Term) -> Result<(), Cause>
        ensures { result ≡ model.check_term term };

    // The value of the term at a symbol, or none.
    fn value(term: Self::Term, symbol: u32) -> Option<u32>
        requires sound { SoundTerm model term }
        ensures { result ≡ model.value term symbol };

    // Whether the term has a value at every symbol of the guard.
    fn suits(term: Self::Term, guard: Self::Guard) -> bool
        requires term { SoundTerm model term }
        requires guard { SoundGuard model guard }
        ensures { result ≡ fits_all model term guard };

    // The term that gives this symbol everywhere.
    fn constant(symbol: u32) -> Self::Term
        requires inside { symbol < model.size }
        ensures { result ≡ model.constant symbol };

    // The one symbol that the term gives at all symbols, or none.
    fn constant_value(term: Self::Term) -> Option<u32>
        requires sound { SoundTerm model term }
        ensures { result ≡ constant_of model term };

    // One term followed by another, or none where they are nowhere both defined.
    fn followed(first: Self::Term, second: Self::Term) -> Option<Self::Term>
        requires first { SoundTerm model first }
        requires second { SoundTerm model second }
        ensures { result ≡ model.followed first second };

    // The part of a guard whose values under a term lie in a second guard, or none where no value does.
    fn narrowed(guard: Self::Guard, term: Self::Term, into: Self::Guard) -> Option<Self::Guard>
        requires guard { SoundGuard model guard }
        requires term { SoundTerm model term }
        requires into { SoundGuard model into }
        ensures { result ≡ model.narrowed guard term into };
}

// The least symbol that two sound guards share, or none.
pub fn least_shared<A: Alphabet>(left: A::Guard, right: A::Guard) -> Option<u32>
    requires left { SoundGuard A.model left }
    requires right { SoundGuard A.model right }
    ensures { LeastFrom (both A.model left right) 0 result }
{
    // each turn jumps to the next symbol that the second guard holds, so there is no range to go over
    let mut from = 0;
    loop {
        let low = A::first_inside(left, from)?;
        let high = A::first_inside(right, low)?;
        if high == low {
            return Some(low);
        }
        from = high;
    }
}
