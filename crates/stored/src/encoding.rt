// Writing a shelf as bytes.
ghost use Rattle.std.specs.Prelude.{◌≡◌, ℕ, ◌+◌, ◌*◌, ◌≤◌, true, List, ◌∷◌, length, take, is_ok, if◌then◌else◌, Ok, Err};
ghost use Rattle.table.specs.Table.{table_of};
ghost use Rattle.holdings.specs.Memory.{memory_of};
ghost use Rattle.holdings.specs.Append.{over};
ghost use Rattle.codec_laws.specs.Code.{Bytes};
ghost use Rattle.codec_laws.specs.Entries.{entry_code};
ghost use Rattle.codec_laws.specs.Lists.{image_all};
ghost use Rattle.stored_laws.specs.Format.{body_of, parsed};
ghost use Rattle.stored_laws.specs.declared.StoredFault.{StoredFault as Refusal};
ghost use Rattle.stored_laws.specs.Shelved.{tables_of, shelf_bytes, encoded};

use alphabet::Alphabet;
use codec::{GuardRecord, Record, Stored, put};
use holdings::{Entry, Head, Shelf};
use stored_laws::StoredFault;
use table::Draft;

// How many bytes a shelf with this head has.
fn size_of(head: Head) -> usize
    requires holdings { head.holdings ≤ 16 }
    requires states { head.states ≤ 1024 }
    requires rules { head.rules ≤ 16384 }
    requires outputs { head.outputs ≤ 65536 }
    ensures { result ≡ 2 + head.holdings * 6 + head.states * 3 + head.rules * 14 + head.outputs * 5 }
{
    2 + head.holdings * 6 + head.states * 3 + head.rules * 14 + head.outputs * 5
}

// Writes the alphabet's byte, the number of holdings and the ledger, and answers the place behind them.
fn put_front(out: &mut [u8], alphabet: u8, ledger: &[Entry]) -> usize
    requires few { length ledger.now ≤ 16 }
    requires room { 2 + length ledger.now * 6 ≤ length out.old }
    ensures end { result ≡ 2 + length ledger.now * 6 }
    ensures bytes { out.new ≡ over out.old 0 (alphabet ∷ length ledger.now ∷ image_all entry_code ledger.now) }
{
    out[0] = alphabet;
    out[1] = ledger.len() as u8;
    put(out, 2, ledger)
}

// Writes the body of a table from a place on, and answers the place behind it. The output is the caller's, and its length is
// that of the whole shelf.
fn put_body<A: Stored>(out: &mut [u8], at: usize, view: Draft<'_, A>) -> usize
where
    A::Guard: GuardRecord,
    A::Term: Record,
    requires room { at + length (body_of A.Guard.GuardRecord.code A.Term.Record.code (table_of view)) ≤ length out.old }
    ensures end { result ≡ at + length (body_of A.Guard.GuardRecord.code A.Term.Record.code (table_of view.entry)) }
    ensures bytes { out.new ≡ over out.old at (body_of A.Guard.GuardRecord.code A.Term.Record.code (table_of view.entry)) }
{
    let rules = put(out, at, view.states);
    let outputs = put(out, rules, view.rules);
    put(out, outputs, view.outputs)
}

// Writes a shelf, and answers how many bytes that took.
pub fn encode<A: Stored>(shelf: &Shelf<'_, A>, out: &mut [u8]) -> Result<usize, StoredFault>
where
    A::Guard: GuardRecord,
    A::Term: Record,
    ensures answer { result ≡ encoded A.Alphabet.model A.Guard.GuardRecord.code A.Term.Record.code A.Stored.number (memory_of shelf.now) (length out.old) }
    ensures bytes { out.new ≡ (if is_ok result then over out.old 0 (shelf_bytes A.Alphabet.model A.Guard.GuardRecord.code A.Term.Record.code A.Stored.number (memory_of shelf.now)) else out.old) }
    ensures back { (n : ℕ) → result ≡ Ok n → parsed A.Guard.GuardRecord.code A.Term.Record.code A.Stored.number (take n out.new) ≡ Ok (tables_of (memory_of shelf.now)) }
    ensures again { (n : ℕ) (file : List ℕ) → result ≡ Ok n → Bytes file → parsed A.Guard.GuardRecord.code A.Term.Record.code A.Stored.number file ≡ Ok (tables_of (memory_of shelf.now)) → take n out.new ≡ file }
    ensures keeps_on_refusal { (f : Refusal) → result ≡ Err f → out.new ≡ out.old }
{
    shelf.check()?;
    let alphabet = A::byte();
    let size = size_of(shelf.head);
    if out.len() < size {
        return Err(StoredFault::TooShort(size));
    }
    let holdings = shelf.head.holdings;
    let mut at = put_front(out, alphabet, &shelf.ledger[0..holdings]);
    // A shelf hands out its holdings by number.
    for i in 0..holdings {
        at = put_body::<A>(out, at, shelf.view(i));
    }
    Ok(at)
}
