// Decoding onto short lists, and writing shelves that cannot be read.
use crate::files::fault_of;
use answers::Fault;
use holdings::{Entry, Shelf};
use ranges::{Bytes, Range, RangeTerm};
use std::test::Fail;
use stored::{StoredFault, decode, encode};
use table::{Rule, State};

const ENTRY: Entry = Entry {
    states: 5,
    rules: 5,
    outputs: 5,
};

const STATE: State = State { mark: 9, finals: 9 };

const RULE: Rule<Range> = Rule {
    state: 7,
    next: 7,
    outputs: 7,
    guard: Range { low: 7, high: 7 },
};

// One body with two states, a rule and three outputs, all zero.
fn two_states() -> [u8; 43] {
    let mut file = [0; 43];
    file[0] = 1;
    file[1] = 1;
    file[3] = 2;
    file[5] = 1;
    file[7] = 3;
    file
}

// What decoding that file onto lists of these lengths answers, and how many holdings there are then.
fn decode_onto(
    ledger: usize,
    states: usize,
    rules: usize,
    outputs: usize,
) -> (Result<(), StoredFault>, usize) {
    let mut entries = [ENTRY; 2];
    let mut marks = [STATE; 3];
    let mut lines = [RULE; 2];
    let mut terms = [RangeTerm::Constant(7); 4];
    let mut shelf: Shelf<'_, Bytes> = Shelf::open(
        &mut entries[0..ledger.min(2)],
        &mut marks[0..states.min(3)],
        &mut lines[0..rules.min(2)],
        &mut terms[0..outputs.min(4)],
    );
    let answer = decode(&two_states(), &mut shelf);
    (answer, shelf.head.holdings)
}

#[test]
fn the_first_short_list_is_named(rt: HostRuntime) {
    assert_eq!(rt; decode_onto(0, 0, 0, 0), (Err(StoredFault::TooShort(1)), 0));
    assert_eq!(rt; decode_onto(1, 1, 0, 0), (Err(StoredFault::TooShort(2)), 0));
    assert_eq!(rt; decode_onto(1, 2, 0, 0), (Err(StoredFault::TooShort(1)), 0));
    assert_eq!(rt; decode_onto(1, 2, 1, 2), (Err(StoredFault::TooShort(3)), 0));
    assert_eq!(rt; decode_onto(1, 2, 1, 3), (Ok(()), 1));
    assert_eq!(rt; decode_onto(2, 3, 2, 4), (Ok(()), 1));
}

#[test]
fn a_shelf_that_cannot_be_read_is_not_written(rt: HostRuntime) -> Result<(), Fail> {
    let mut entries = [ENTRY; 1];
    let mut marks = [STATE; 5];
    let mut lines = [RULE; 5];
    let mut terms = [RangeTerm::Constant(7); 5];
    let mut shelf: Shelf<'_, Bytes> = Shelf::open(&mut entries, &mut marks, &mut lines, &mut terms);
    shelf.head.holdings = 1;
    let mut out = [9; 4];
    let misfit = encode(&shelf, &mut out);
    assert_eq!(rt; misfit, Err(StoredFault::Shelf(Fault::Misfit)));
    assert_eq!(rt; out[0], 9);
    shelf.head.states = 5;
    shelf.head.rules = 5;
    shelf.head.outputs = 5;
    let unsound = encode(&shelf, &mut out);
    match unsound {
        Err(StoredFault::Shelf(fault)) => assert_eq!(rt; fault.report().place, 1),
        _ => return Err(Fail::new("an unsound shelf was written")),
    }
    assert_eq!(rt; out[0], 9);
    Ok(())
}

#[test]
fn counts_over_the_limits_are_no_fault_of_a_file(rt: HostRuntime) -> Result<(), Fail> {
    let mut file = vec![in rt.alloc(); 0u8; 8 + 65 * 3]?;
    let bytes = file.as_mut_slice();
    bytes[0] = 1;
    bytes[1] = 1;
    bytes[3] = 65;
    assert_eq!(rt; fault_of::<Bytes>(bytes), None);
    Ok(())
}
