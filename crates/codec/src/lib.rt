// Reading and writing the records of a stored shelf: one trait for records of fixed width, one for alphabets.
#![tactic(auto)]

ghost use Rattle.std.specs.Prelude.{◌≡◌, ℕ, true, length};
ghost use Rattle.alphabet.specs.Model.{SoundGuard, SoundTerm};
ghost use Rattle.codec_laws.specs.Code.{Code, Exact, Free};

use alphabet::Alphabet;

pub mod entries;
pub mod mark_records;
pub mod range_records;
pub mod runs;

pub use runs::{fill, first_wrong, put};

// A record that is stored in a fixed number of bytes.
pub trait Record: Copy {
    // Its bytes, and what bytes mean.
    ghost code: { Code Self };

    // That reading undoes writing, and writing reading.
    ghost laws: { Exact code };

    // How many bytes it has.
    fn width() -> usize
        ensures { result ≡ code.width };

    // The record that bytes mean.
    fn read(bytes: &[u8]) -> Self
        requires { length bytes.now ≡ code.width }
        ensures { result ≡ code.meaning bytes.now };

    // Puts its bytes into a slice.
    fn write(self, out: &mut [u8])
        requires { length out.old ≡ code.width }
        ensures { out.new ≡ code.image self };

    // The place of the first byte that stands in no record, or none. It has no default, which would have to be right of
    // every record.
    fn wrong(bytes: &[u8]) -> Option<usize>
        requires { length bytes.now ≡ code.width }
        ensures { result ≡ code.wrong bytes.now };
}

// A guard. It is stored in eight bytes, and all eight bytes are the bytes of a guard.
pub trait GuardRecord: Copy {
    // Its bytes, and what bytes mean.
    ghost code: { Code Self };

    // That reading undoes writing, and writing reading.
    ghost laws: { Exact code };

    ghost wide: { code.width ≡ 8 };

    ghost free: { Free code };

    // The guard that bytes mean.
    fn read(bytes: &[u8]) -> Self
        requires { length bytes.now ≡ 8 }
        ensures { result ≡ code.meaning bytes.now };

    // Puts its bytes into a slice.
    fn write(self, out: &mut [u8])
        requires { length out.old ≡ 8 }
        ensures { out.new ≡ code.image self };
}

// An alphabet whose filters can be stored: guards in eight bytes, terms in five.
pub trait Stored: Alphabet
where
    Self::Guard: GuardRecord,
    Self::Term: Record,
{
    // The byte that names the alphabet.
    ghost number: { ℕ };

    // The byte that names the alphabet. Its sound guards and terms fit their bytes.
    fn byte() -> u8
        ensures byte { result ≡ number }
        ensures term_width { Self.Term.Record.code.width ≡ 5 }
        ensures guards { (g : Self.Guard) → SoundGuard Self.Alphabet.model g → Self.Guard.GuardRecord.code.fits g ≡ true }
        ensures terms { (t : Self.Term) → SoundTerm Self.Alphabet.model t → Self.Term.Record.code.fits t ≡ true };
}
