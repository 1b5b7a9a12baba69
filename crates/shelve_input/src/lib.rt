// The input of the program `shelve`: which alphabet a file is of, or why it is refused before it is read.
#![tactic(auto)]

ghost use Rattle.std.specs.Prelude.{◌≡◌, Some};
ghost use Rattle.shelve_input.specs.Input.{named, kind_of_lem, code_of, code_text};

use std::fmt;

// The most bytes of a file.
pub const MOST_BYTES: usize = 16384;

// The alphabet of a file.
#[derive(Clone, Copy, Debug, PartialEq)]
pub enum Kind {
    Bytes,
    CodePoints,
    Marks,
}

impl TryFrom<u8> for Kind {
    type Error = InputFault;

    ghost try_from_gives = { λ b r. r ≡ named b };

    fn try_from(byte: u8) -> Result<Kind, InputFault> {
        match byte {
            1 => Ok(Kind::Bytes),
            2 => Ok(Kind::CodePoints),
            3 => Ok(Kind::Marks),
            _ => Err(InputFault::NoAlphabet),
        }
    }
}

// Why a file is refused at once.
#[derive(Clone, Copy, Debug, PartialEq)]
pub enum InputFault {
    // It has more than 16,384 bytes.
    TooLong,
    // It has less than two bytes, namely so many.
    CutShort(usize),
    // Its first byte names no alphabet.
    NoAlphabet,
}

// A fault as it is reported: `docs/FORMAT.md` lists the number, which is what is printed.
#[derive(Clone, Copy, Debug, PartialEq)]
pub struct InputCode {
    pub number: u8,
    pub place: usize,
}

impl InputFault {
    // The fault as it is reported. A method and no `From`, since `fault.code()` reads shorter at each call.
    pub fn code(self) -> InputCode
        ensures { result ≡ code_of self }
    {
        let (number, place) = match self {
            InputFault::TooLong => (3, 2),
            InputFault::CutShort(length) => (17, length),
            InputFault::NoAlphabet => (18, 0),
        };
        InputCode { number, place }
    }
}

// The number and the place.
impl fmt::Display for InputCode {
    ghost output = { λ c. Some (code_text c) };

    fn fmt<W: fmt::Write>(&self, f: &mut fmt::Formatter<W>) -> fmt::Result {
        let number = self.number;
        let place = self.place;
        write!(f, "{number} {place}")
    }
}

// The alphabet that the first byte of a file names.
pub fn kind_of(file: &[u8]) -> Result<Kind, InputFault>
    ensures { result ≡ kind_of_lem file.now }
{
    if file.len() > MOST_BYTES {
        return Err(InputFault::TooLong);
    }
    let [alphabet, _, ..] = file else {
        return Err(InputFault::CutShort(file.len()));
    };
    Kind::try_from(*alphabet)
}

#[cfg(test)]
mod tests {
    use super::*;
    use std::test::Fail;

    #[test]
    fn files_of_every_length(rt: HostRuntime) -> Result<(), Fail> {
        assert_eq!(rt; kind_of(&[]), Err(InputFault::CutShort(0)));
        assert_eq!(rt; kind_of(&[3]), Err(InputFault::CutShort(1)));
        assert_eq!(rt; kind_of(&[1, 0]), Ok(Kind::Bytes));
        let most = vec![in rt.alloc(); 2u8; MOST_BYTES]?;
        assert_eq!(rt; kind_of(most.as_slice()), Ok(Kind::CodePoints));
        let more = vec![in rt.alloc(); 2u8; MOST_BYTES + 1]?;
        assert_eq!(rt; kind_of(more.as_slice()), Err(InputFault::TooLong));
        Ok(())
    }

    #[test]
    fn alphabets(rt: HostRuntime) {
        assert_eq!(rt; kind_of(&[0, 0]), Err(InputFault::NoAlphabet));
        assert_eq!(rt; kind_of(&[3, 0]), Ok(Kind::Marks));
        assert_eq!(rt; kind_of(&[4, 0]), Err(InputFault::NoAlphabet));
        assert_eq!(rt; kind_of(&[255, 255]), Err(InputFault::NoAlphabet));
    }
}
