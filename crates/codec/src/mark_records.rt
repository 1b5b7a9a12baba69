// Sets of marks and their terms as records, and the alphabet of marks as it is stored.
ghost use Rattle.std.specs.Prelude.{refl};
ghost use Rattle.codec_laws.specs.Marks.{set_code, mark_term_code};
ghost use Rattle.codec_laws.proofs.MarkLaws.{set_exact, set_free, mark_term_exact};

use crate::{GuardRecord, Record, Stored};
use marks::{MarkSet, MarkTerm, Marks};

// The byte that names the alphabet in a file.
const MARKS_NUMBER: u8 = 3;

impl GuardRecord for MarkSet {
    ghost code = { set_code };

    ghost laws = { set_exact };

    ghost wide = { refl };

    ghost free = { set_free };

    fn read(bytes: &[u8]) -> MarkSet {
        MarkSet {
            bits: u64::from_be_bytes([
                bytes[0], bytes[1], bytes[2], bytes[3], bytes[4], bytes[5], bytes[6], bytes[7],
            ]),
        }
    }

    fn write(self, out: &mut [u8]) {
        out.copy_from_slice(&self.bits.to_be_bytes());
    }
}

impl Record for MarkTerm {
    ghost code = { mark_term_code };

    ghost laws = { mark_term_exact };

    fn width() -> usize {
        5
    }

    fn read(bytes: &[u8]) -> MarkTerm {
        if bytes[0] == 0 {
            MarkTerm::Constant(u32::from_be_bytes([bytes[1], bytes[2], bytes[3], bytes[4]]))
        } else {
            MarkTerm::Turn {
                factor: bytes[3] as u32,
                offset: bytes[4] as u32,
            }
        }
    }

    fn write(self, out: &mut [u8]) {
        let [tag, a, b, c, d] = match self {
            MarkTerm::Constant(mark) => {
                let [a, b, c, d] = mark.to_be_bytes();
                [0, a, b, c, d]
            }
            MarkTerm::Turn { factor, offset } => {
                [1, 0, 0, (factor % 256) as u8, (offset % 256) as u8]
            }
        };
        out.copy_from_slice(&[tag, a, b, c, d]);
    }

    // A tag above 1, or a byte of a turn that should be 0: `if`s, since each names its own place.
    fn wrong(bytes: &[u8]) -> Option<usize> {
        match bytes[0] {
            0 => None,
            1 => {
                if bytes[1] > 0 {
                    Some(1)
                } else if bytes[2] > 0 {
                    Some(2)
                } else {
                    None
                }
            }
            _ => Some(0),
        }
    }
}

impl Stored for Marks {
    ghost number = { 3 };

    fn byte() -> u8 {
        MARKS_NUMBER
    }
}
