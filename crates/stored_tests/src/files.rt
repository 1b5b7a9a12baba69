// Sample files, and what opening one answers.
use codec::{GuardRecord, Record, Stored};
use reader::Reader;
use stored_laws::StoredFault;

// One table over bytes: it accepts everything and copies it.
pub const COPY: [u8; 30] = [
    1, 1, 0, 1, 0, 1, 0, 1, 1, 0, 0, 0, 0, 0, 0, 0, 1, 0, 0, 0, 0, 0, 0, 0, 255, 1, 0, 0, 0, 0,
];

// One table over marks: it accepts everything and turns each mark by factor 2 and offset 1.
pub const TURN: [u8; 30] = [
    3, 1, 0, 1, 0, 1, 0, 1, 1, 0, 0, 0, 0, 0, 0, 0, 1, 0, 0, 0, 31, 255, 255, 255, 255, 1, 0, 0, 2,
    1,
];

// The fault of a file over an alphabet, or none.
pub fn fault_of<A: Stored>(file: &[u8]) -> Option<StoredFault>
where
    A::Guard: GuardRecord,
    A::Term: Record,
{
    Reader::open::<A>(file).err()
}
