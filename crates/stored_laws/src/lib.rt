// Stored shelves: the faults of a file, what bytes mean, and the bytes of tables.
#![tactic(auto)]

ghost use Rattle.std.specs.Prelude.{◌≡◌, Some};
ghost use Rattle.stored_laws.specs.Faults.{code_of, code_text};
ghost use Rattle.stored_laws.specs.declared.StoredFault.TheVariants.{Shelf};

use answers::Fault;
use std::fmt;

// Why a stored shelf cannot be read, decoded or written.
#[derive(Clone, Copy, Debug, PartialEq)]
pub enum StoredFault {
    // The output or a list is too short; this length is needed.
    TooShort(usize),
    // The file ends too early; it has this length.
    CutShort(usize),
    // The first byte names another alphabet.
    OtherAlphabet,
    // The second byte is above 16.
    TooManyHoldings,
    // The file goes on; the first byte left over stands at this place.
    LeftOver(usize),
    // The byte at this place is a tag above 1, or one that should be 0.
    BadByte(usize),
    // The shelf that was to be written is at fault.
    Shelf(Fault),
}

// A fault as it is reported: its number, its place, and the fault of the shelf where there is one.
#[derive(Clone, Copy, Debug, PartialEq)]
pub struct StoredCode {
    pub number: u8,
    pub place: usize,
    pub shelf: Option<Fault>,
}

impl StoredFault {
    // The fault as it is reported; the shelf's own is kept whole beside its number and place. A method, since a `From` would not
    // say at a call what it gives.
    pub fn code(self) -> StoredCode
        ensures { result ≡ code_of self }
    {
        let (number, place, shelf) = match self {
            StoredFault::TooShort(length) => (16, length, None),
            StoredFault::CutShort(length) => (17, length, None),
            StoredFault::OtherAlphabet => (18, 0, None),
            StoredFault::TooManyHoldings => (18, 1, None),
            StoredFault::LeftOver(place) => (19, place, None),
            StoredFault::BadByte(place) => (20, place, None),
            StoredFault::Shelf(fault) => {
                let report = fault.report();
                (report.number, report.place, Some(fault))
            }
        };
        StoredCode {
            number,
            place,
            shelf,
        }
    }
}

impl From<Fault> for StoredFault {
    ghost from_gives = { λ f r. r ≡ Shelf f };

    fn from(fault: Fault) -> StoredFault {
        StoredFault::Shelf(fault)
    }
}

// The number and the place. Codes of tables and of input have a `Display` of their own, as they are other types.
impl fmt::Display for StoredCode {
    ghost output = { λ c. Some (code_text c) };

    fn fmt<W: fmt::Write>(&self, f: &mut fmt::Formatter<W>) -> fmt::Result {
        let number = self.number;
        let place = self.place;
        write!(f, "{number} {place}")
    }
}
