// Ranges of symbols and their terms as records, and the alphabets of bytes and code points as they are stored.
ghost use Rattle.std.specs.Prelude.{refl};
ghost use Rattle.codec_laws.specs.Ranges.{range_code, range_term_code};
ghost use Rattle.codec_laws.proofs.Laws.{range_exact, range_free, range_term_exact};

use crate::{GuardRecord, Record, Stored};
use ranges::{Bytes, CodePoints, Range, RangeTerm};

// The bytes that name the two alphabets in a file.
const BYTES_NUMBER: u8 = 1;

const CODE_POINTS_NUMBER: u8 = 2;

impl GuardRecord for Range {
    ghost code = { range_code };

    ghost laws = { range_exact };

    ghost wide = { refl };

    ghost free = { range_free };

    fn read(bytes: &[u8]) -> Range {
        Range {
            low: u32::from_be_bytes([bytes[0], bytes[1], bytes[2], bytes[3]]),
            high: u32::from_be_bytes([bytes[4], bytes[5], bytes[6], bytes[7]]),
        }
    }

    fn write(self, out: &mut [u8]) {
        let [a, b, c, d] = self.low.to_be_bytes();
        let [e, f, g, h] = self.high.to_be_bytes();
        out.copy_from_slice(&[a, b, c, d, e, f, g, h]);
    }
}

impl Record for RangeTerm {
    ghost code = { range_term_code };

    ghost laws = { range_term_exact };

    fn width() -> usize {
        5
    }

    fn read(bytes: &[u8]) -> RangeTerm {
        let number = [bytes[1], bytes[2], bytes[3], bytes[4]];
        if bytes[0] == 0 {
            RangeTerm::Constant(u32::from_be_bytes(number))
        } else {
            RangeTerm::Shift(i32::from_be_bytes(number))
        }
    }

    fn write(self, out: &mut [u8]) {
        let (tag, [a, b, c, d]) = match self {
            RangeTerm::Constant(symbol) => (0, symbol.to_be_bytes()),
            RangeTerm::Shift(shift) => (1, shift.to_be_bytes()),
        };
        out.copy_from_slice(&[tag, a, b, c, d]);
    }

    fn wrong(bytes: &[u8]) -> Option<usize> {
        (bytes[0] > 1).then_some(0)
    }
}

impl Stored for Bytes {
    ghost number = { 1 };

    fn byte() -> u8 {
        BYTES_NUMBER
    }
}

impl Stored for CodePoints {
    ghost number = { 2 };

    fn byte() -> u8 {
        CODE_POINTS_NUMBER
    }
}
