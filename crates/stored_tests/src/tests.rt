// What files are refused for, and what decoding and writing leave.
use crate::files::{COPY, TURN, fault_of};
use holdings::{Entry, Shelf};
use marks::Marks;
use ranges::{Bytes, Range, RangeTerm};
use stored::{StoredFault, decode, encode};
use table::{Rule, State};

#[test]
fn whole_files_open(rt: HostRuntime) {
    assert_eq!(rt; fault_of::<Bytes>(&COPY), None);
    assert_eq!(rt; fault_of::<Marks>(&TURN), None);
    assert_eq!(rt; fault_of::<Bytes>(&[1, 0]), None);
}

#[test]
fn a_file_cut_anywhere_is_cut_short(rt: HostRuntime) {
    for n in 0..30 {
        assert_eq!(rt;
            fault_of::<Bytes>(&COPY[0..n]),
            Some(StoredFault::CutShort(n))
        );
    }
}

#[test]
fn bytes_left_over_are_named(rt: HostRuntime) {
    assert_eq!(rt;
        fault_of::<Bytes>(&[1, 0, 7]),
        Some(StoredFault::LeftOver(2))
    );
    let mut longer = [0; 32];
    longer[0..30].copy_from_slice(&COPY);
    assert_eq!(rt; fault_of::<Bytes>(&longer), Some(StoredFault::LeftOver(30)));
}

#[test]
fn another_alphabet_and_too_many_holdings(rt: HostRuntime) {
    assert_eq!(rt; fault_of::<Bytes>(&TURN), Some(StoredFault::OtherAlphabet));
    assert_eq!(rt; fault_of::<Marks>(&COPY), Some(StoredFault::OtherAlphabet));
    assert_eq!(rt;
        fault_of::<Bytes>(&[1, 17]),
        Some(StoredFault::TooManyHoldings)
    );
    let mut sixteen = [0; 98];
    sixteen[0] = 1;
    sixteen[1] = 16;
    assert_eq!(rt; fault_of::<Bytes>(&sixteen), None);
}

#[test]
fn a_bad_byte_is_named(rt: HostRuntime) {
    let mut copy = COPY;
    copy[25] = 2;
    assert_eq!(rt; fault_of::<Bytes>(&copy), Some(StoredFault::BadByte(25)));
    let mut turn = TURN;
    turn[27] = 1;
    assert_eq!(rt; fault_of::<Marks>(&turn), Some(StoredFault::BadByte(27)));
    turn[26] = 1;
    assert_eq!(rt; fault_of::<Marks>(&turn), Some(StoredFault::BadByte(26)));
    turn[25] = 2;
    assert_eq!(rt; fault_of::<Marks>(&turn), Some(StoredFault::BadByte(25)));
}

#[test]
fn decoded_and_written_again(rt: HostRuntime) {
    let mut ledger = [Entry {
        states: 0,
        rules: 0,
        outputs: 0,
    }; 2];
    let mut states = [State { mark: 0, finals: 7 }; 2];
    let mut rules = [Rule {
        state: 7,
        next: 7,
        outputs: 7,
        guard: Range { low: 7, high: 7 },
    }; 2];
    let mut outputs = [RangeTerm::Constant(7); 2];
    let mut shelf: Shelf<'_, Bytes> = Shelf::open(
        &mut ledger,
        &mut states,
        &mut rules,
        &mut outputs,
    );
    let decoded = decode(&COPY, &mut shelf);
    let holdings = shelf.head.holdings;
    let mut short = [9; 29];
    let refused = encode(&shelf, &mut short);
    let mut out = [9; 32];
    let written = encode(&shelf, &mut out);
    let Shelf {
        head: _,
        ledger: _,
        states: _,
        rules: _,
        outputs: _,
    } = shelf;
    assert_eq!(rt; decoded, Ok(()));
    assert_eq!(rt; holdings, 1);
    assert_eq!(rt; refused, Err(StoredFault::TooShort(30)));
    assert_eq!(rt; written, Ok(30));
    assert!(rt; out[0..30] == COPY[0..30]);
    assert_eq!(rt; out[30], 9);
}
