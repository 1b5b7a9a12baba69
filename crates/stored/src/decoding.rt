// Decoding a file onto a shelf.
ghost use Rattle.std.specs.Prelude.{◌≡◌, ◌+◌, ◌<◌, ◌≤◌, true, List, length, nat_le, Ok, Err};
ghost use Rattle.table.specs.Table.{Table};
ghost use Rattle.holdings.specs.Memory.{memory_of, states_of_lem, rules_of, outputs_of_lem, fits as fitting};
ghost use Rattle.holdings.specs.Append.{appended};
ghost use Rattle.codec_laws.specs.Numbers.{at};
ghost use Rattle.stored_laws.specs.Format.{contents, unless, bytes_of, parsed};
ghost use Rattle.stored_laws.specs.declared.StoredFault.{StoredFault as Refusal};
ghost use Rattle.stored_laws.specs.declared.StoredFault.TheVariants.{TooShort};
ghost use Rattle.stored_laws.specs.Shelved.{tables_of, room_for, room_of, shelved, decoded, decoded_memory};
ghost use Rattle.reader.specs.Parts.{whole};
ghost use Rattle.stored.specs.Bodies.{body_table, Full, tables_of_file};

use alphabet::Alphabet;
use codec::{GuardRecord, Record, Stored, fill};
use holdings::{Head, Shelf};
use reader::{Body, Reader};
use stored_laws::StoredFault;

// What the bodies of a file count together.
fn totals(reader: &Reader<'_>) -> Head
    requires { whole reader.now.file.now ≡ true }
    ensures holdings { result.holdings ≡ at reader.now.file.now 1 }
    ensures states { result.states ≡ states_of_lem (contents reader.now.file.now) }
    ensures rules { result.rules ≡ rules_of (contents reader.now.file.now) }
    ensures outputs { result.outputs ≡ outputs_of_lem (contents reader.now.file.now) }
{
    let mut head = Head::default();
    for body in reader.bodies() {
        head.holdings += 1;
        head.states += body.counts.states as usize;
        head.rules += body.counts.rules as usize;
        head.outputs += body.counts.outputs as usize;
    }
    head
}

// Whether a list is as long as is needed.
fn long_enough(length: usize, needed: usize) -> Result<(), StoredFault>
    ensures { result ≡ unless (nat_le needed length) (TooShort needed) }
{
    if length < needed {
        Err(StoredFault::TooShort(needed))
    } else {
        Ok(())
    }
}

// Whether ledger and lists are long enough for what a head counts, else the length that the first short one needs.
fn check_room<A: Alphabet>(shelf: &Shelf<'_, A>, head: Head) -> Result<(), StoredFault>
    ensures { result ≡ room_for (memory_of shelf.now) head }
{
    long_enough(shelf.ledger.len(), head.holdings)?;
    long_enough(shelf.states.len(), head.states)?;
    long_enough(shelf.rules.len(), head.rules)?;
    long_enough(shelf.outputs.len(), head.outputs)
}

// Puts the table of a body behind the holdings.
fn append_body<A: Stored>(shelf: &mut Shelf<'_, A>, body: Body<'_>)
where
    A::Guard: GuardRecord,
    A::Term: Record,
    requires ledger { shelf.old.head.holdings < length shelf.old.ledger.now }
    requires states { shelf.old.head.states + body.counts.states ≤ length shelf.old.states.now }
    requires rules { shelf.old.head.rules + body.counts.rules ≤ length shelf.old.rules.now }
    requires outputs { shelf.old.head.outputs + body.counts.outputs ≤ length shelf.old.outputs.now }
    requires full { Full body }
    requires five { A.Term.Record.code.width ≡ 5 }
    ensures { memory_of shelf.new ≡ appended (memory_of shelf.old) (body_table A.Guard.GuardRecord.code A.Term.Record.code body.entry) }
{
    let head = shelf.head;
    let counts = body.counts;
    let states = counts.states as usize;
    let rules = counts.rules as usize;
    let outputs = counts.outputs as usize;
    fill(&mut *shelf.states, head.states, states, body.states.bytes);
    fill(&mut *shelf.rules, head.rules, rules, body.rules.bytes);
    fill(
        &mut *shelf.outputs,
        head.outputs,
        outputs,
        body.outputs.bytes,
    );
    let holdings = head.holdings;
    shelf.ledger[holdings] = counts;
    shelf.head = Head {
        holdings: holdings + 1,
        states: head.states + states,
        rules: head.rules + rules,
        outputs: head.outputs + outputs,
    };
}

// Puts the tables of all bodies on a shelf, from its front on.
fn append_all<A: Stored>(shelf: &mut Shelf<'_, A>, reader: &Reader<'_>)
where
    A::Guard: GuardRecord,
    A::Term: Record,
    requires file { whole reader.now.file.now ≡ true }
    requires room { room_of (memory_of shelf.old) (tables_of_file A.Guard.GuardRecord.code A.Term.Record.code reader.now.file.now) ≡ Ok tt }
    requires five { A.Term.Record.code.width ≡ 5 }
    ensures { memory_of shelf.new ≡ shelved (memory_of shelf.old) (tables_of_file A.Guard.GuardRecord.code A.Term.Record.code reader.now.file.now) }
{
    shelf.head = Head::default();
    for body in reader.bodies() {
        append_body(shelf, body);
    }
}

// Fills head, ledger and lists of a shelf with the tables of a file, as they are stored.
pub fn decode<A: Stored>(file: &[u8], shelf: &mut Shelf<'_, A>) -> Result<(), StoredFault>
where
    A::Guard: GuardRecord,
    A::Term: Record,
    ensures answer { result ≡ decoded (memory_of shelf.old) (parsed A.Guard.GuardRecord.code A.Term.Record.code A.Stored.number file.now) }
    ensures memory { memory_of shelf.new ≡ decoded_memory (memory_of shelf.old) (parsed A.Guard.GuardRecord.code A.Term.Record.code A.Stored.number file.now) }
    ensures tables { (Fs : List (Table _ _)) → result ≡ Ok tt → (parsed A.Guard.GuardRecord.code A.Term.Record.code A.Stored.number file.now) ≡ Ok Fs → tables_of (memory_of shelf.new) ≡ Fs }
    ensures fits { result ≡ Ok tt → fitting (memory_of shelf.new) ≡ true }
    ensures rewritten { (Fs : List (Table _ _)) → result ≡ Ok tt → (parsed A.Guard.GuardRecord.code A.Term.Record.code A.Stored.number file.now) ≡ Ok Fs → bytes_of A.Guard.GuardRecord.code A.Term.Record.code A.Stored.number Fs ≡ file.now }
    ensures keeps_on_refusal { (f : Refusal) → result ≡ Err f → memory_of shelf.new ≡ memory_of shelf.old }
{
    let reader = Reader::open::<A>(file)?;
    let head = totals(&reader);
    check_room(shelf, head)?;
    append_all(shelf, &reader);
    Ok(())
}
