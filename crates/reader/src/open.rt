// Opening a file and handing out its bodies.
ghost use Rattle.std.specs.Prelude.{◌≡◌, ◌+◌, ◌-◌, ◌≤◌, true, length, is_ok, Some, Ok};
ghost use Rattle.std.specs.Iterator.{at_most};
ghost use Rattle.codec_laws.specs.Numbers.{at};
ghost use Rattle.stored_laws.specs.Format.{then, contents as all_counts_lem, body_size, bodies_at, wrong_in, checked_file};
ghost use Rattle.reader.specs.Parts.{whole as is_whole, number_of, parts_at, parts_of};
ghost use Rattle.reader.specs.Opened.{file_of, shown, Hands};

use crate::body::{Bodies, Body, Reader, Span};
use crate::places::{body_at, counts_at, is_whole, size_of, to_outputs};
use codec::{GuardRecord, Record, Stored, first_wrong};
use holdings::Entry;
use stored_laws::StoredFault;

// The most bodies of a file.
const MOST_BODIES: u8 = 16;

// The place of the first wrong byte of a file, or none.
fn first_bad<T: Record>(reader: &Reader<'_>) -> Option<usize>
    requires whole { is_whole reader.now.file.now ≡ true }
    requires five { T.Record.code.width ≡ 5 }
    ensures { result ≡ wrong_in T.Record.code reader.now.file.now (bodies_at reader.now.file.now) (all_counts_lem reader.now.file.now) }
{
    for body in reader.counted_bodies(reader.file[1] as usize) {
        let count = body.counts.outputs as usize;
        if let Some(bad) = first_wrong::<T>(reader.file, body.outputs.place, count) {
            return Some(bad);
        }
    }
    None
}

impl<'a> Reader<'a> {
    // Checks a file of an alphabet.
    pub fn open<A: Stored>(file: &'a [u8]) -> Result<Reader<'a>, StoredFault>
    where
        A::Guard: GuardRecord,
        A::Term: Record,
        ensures file { file_of result ≡ then (checked_file A.Term.Record.code file.now A.Stored.number) (Ok file.now) }
        ensures width { is_ok result ≡ true → A.Term.Record.code.width ≡ 5 }
    {
        let [alphabet, count, rest @ ..] = file else {
            return Err(StoredFault::CutShort(file.len()));
        };
        if *alphabet != A::byte() {
            return Err(StoredFault::OtherAlphabet);
        }
        if *count > MOST_BODIES {
            return Err(StoredFault::TooManyHoldings);
        }
        let bodies = *count as usize;
        if rest.len() < bodies * 6 {
            return Err(StoredFault::CutShort(file.len()));
        }
        let size = body_at(file, bodies);
        if file.len() < size {
            return Err(StoredFault::CutShort(file.len()));
        }
        if size < file.len() {
            return Err(StoredFault::LeftOver(size));
        }
        let reader = Reader { file };
        if let Some(bad) = first_bad::<A::Term>(&reader) {
            return Err(StoredFault::BadByte(bad));
        }
        Ok(reader)
    }

    // The parts of the body behind i others, or none where there is no such body.
    pub fn body(&self, i: usize) -> Option<Body<'a>>
        ensures { shown result ≡ parts_of self.now.file.now i }
    {
        let file = self.file;
        if !is_whole(file) || i >= file[1] as usize {
            return None;
        }
        Some(Body::cut(file, body_at(file, i), counts_at(file, i)))
    }

    // All bodies, in their order.
    pub fn bodies(&self) -> Bodies<'a>
        ensures file { result.reader.file.now ≡ self.now.file.now }
        ensures start { result.given ≡ 0 }
    {
        if is_whole(self.file) {
            self.counted_bodies(self.file[1] as usize)
        } else {
            self.counted_bodies(0)
        }
    }

    // All bodies of a file of which it is known how many there are.
    fn counted_bodies(&self, count: usize) -> Bodies<'a>
        requires { count ≡ number_of self.now.file.now }
        ensures file { result.reader.file.now ≡ self.now.file.now }
        ensures start { result.given ≡ 0 }
    {
        Bodies {
            reader: *self,
            given: 0,
            count,
            place: 2 + count * 6,
        }
    }
}

impl<'a> Body<'a> {
    // The body with these counts that begins at a place.
    fn cut(file: &'a [u8], place: usize, counts: Entry) -> Body<'a>
        requires inside { place + body_size counts ≤ length file.now }
        ensures { shown (Some result) ≡ Some (parts_at file.now place counts) }
    {
        let rules = place + counts.states as usize * 3;
        let outputs = place + to_outputs(counts);
        let end = place + size_of(counts);
        Body {
            counts,
            states: Span {
                place,
                bytes: &file[place..rules],
            },
            rules: Span {
                place: rules,
                bytes: &file[rules..outputs],
            },
            outputs: Span {
                place: outputs,
                bytes: &file[outputs..end],
            },
        }
    }
}

impl<'a> Iterator for Bodies<'a> {
    type Item = Body<'a>;

    ghost next_gives = { Hands };

    ghost remaining = { λ s. at_most (at s.reader.file.now 1 - s.given) };

    fn next(&mut self) -> Option<Body<'a>> {
        if self.given >= self.count {
            return None;
        }
        let file = self.reader.file;
        let counts = counts_at(file, self.given);
        let body = Body::cut(file, self.place, counts);
        self.place += size_of(counts);
        self.given += 1;
        Some(body)
    }
}
