// Shelf marks: the alphabet whose guards are sets of marks and whose terms count modulo 37.
#![tactic(auto)]

ghost use Rattle.std.specs.Prelude.{◌≡◌, ◌+◌, ◌*◌, ◌%◌, ◌<◌};
ghost use Rattle.alphabet.specs.Model.{SoundGuard, SoundTerm};
ghost use Rattle.mark_laws.specs.Marks.{marks, goes_into_lem};
ghost use Rattle.mark_laws.proofs.Laws.{lawful};

use alphabet::{Alphabet, Cause};
pub use mark_laws::{MarkSet, MarkTerm};

mod letters;

pub use letters::{letter, mark_of};

// The alphabet of the marks. They follow ISO/IEC 7064, MOD 37-2: 37 symbols with the values 0 to 36.
pub struct Marks {}

// How many marks there are.
pub const SIZE: u32 = 37;

// A mark times another plus a third, modulo 37.
fn times_plus(left: u32, right: u32, more: u32) -> u32
    requires left { left < 37 }
    requires right { right < 37 }
    requires more { more < 37 }
    ensures { result ≡ (left * right + more) % 37 }
{
    (left * right + more) % SIZE
}

// Whether a guard holds the mark, and a second guard the value of the term there.
fn goes_into(guard: MarkSet, term: MarkTerm, into: MarkSet, mark: u32) -> bool
    requires guard { SoundGuard marks guard }
    requires term { SoundTerm marks term }
    requires into { SoundGuard marks into }
    ensures { result ≡ goes_into_lem guard term into mark }
{
    Marks::value(term, mark).is_some_and(|value| Marks::holds(guard, mark)
        && Marks::holds(into, value))
}

impl Alphabet for Marks {
    type Guard = MarkSet;

    type Term = MarkTerm;

    ghost model = { marks };

    ghost laws = { lawful };

    fn check_guard(guard: MarkSet) -> Result<(), Cause> {
        if guard.bits == 0 {
            return Err(Cause::NoSymbols);
        }
        if guard.bits >> SIZE != 0 {
            return Err(Cause::BeyondSize);
        }
        Ok(())
    }

    fn holds(guard: MarkSet, symbol: u32) -> bool {
        symbol < SIZE && guard.bits >> symbol & 1 == 1
    }

    fn first_inside(guard: MarkSet, from: u32) -> Option<u32> {
        for mark in from..SIZE {
            if Self::holds(guard, mark) {
                return Some(mark);
            }
        }
        None
    }

    // No guard holds a number from 37 on, so the search ends there.
    fn first_outside(guard: MarkSet, from: u32) -> u32 {
        for mark in from..SIZE {
            if !Self::holds(guard, mark) {
                return mark;
            }
        }
        from.max(SIZE)
    }

    fn check_term(term: MarkTerm) -> Result<(), Cause> {
        let sound = match term {
            MarkTerm::Constant(mark) => mark < SIZE,
            MarkTerm::Turn { factor, offset } => 0 < factor && factor < SIZE && offset < SIZE,
        };
        if sound {
            Ok(())
        } else {
            Err(Cause::OutOfBounds)
        }
    }

    fn value(term: MarkTerm, symbol: u32) -> Option<u32> {
        if symbol >= SIZE {
            return None;
        }
        match term {
            MarkTerm::Constant(mark) => Some(mark),
            MarkTerm::Turn { factor, offset } => Some(times_plus(factor, symbol, offset)),
        }
    }

    // A term has a value at every mark.
    fn suits(_term: MarkTerm, _guard: MarkSet) -> bool {
        true
    }

    fn constant(symbol: u32) -> MarkTerm {
        MarkTerm::Constant(symbol)
    }

    // A turn gives different marks at different ones.
    fn constant_value(term: MarkTerm) -> Option<u32> {
        match term {
            MarkTerm::Constant(mark) => Some(mark),
            MarkTerm::Turn { .. } => None,
        }
    }

    fn followed(first: MarkTerm, second: MarkTerm) -> Option<MarkTerm> {
        match (first, second) {
            (MarkTerm::Constant(mark), _) => {
                Self::value(second, mark).map(|value| MarkTerm::Constant(value))
            }
            (MarkTerm::Turn { .. }, MarkTerm::Constant(mark)) => Some(MarkTerm::Constant(mark)),
            (
                MarkTerm::Turn {
                    factor: a,
                    offset: b,
                },
                MarkTerm::Turn {
                    factor: c,
                    offset: d,
                },
            ) => {
                Some(MarkTerm::Turn {
                    factor: times_plus(a, c, 0),
                    offset: times_plus(b, c, d),
                })
            }
        }
    }

    fn narrowed(guard: MarkSet, term: MarkTerm, into: MarkSet) -> Option<MarkSet> {
        let mut bits: u64 = 0;
        for mark in 0..SIZE {
            if goes_into(guard, term, into, mark) {
                bits |= 1 << mark;
            }
        }
        (bits != 0).then_some(MarkSet { bits })
    }
}
