// A shelf put together from drafts, doubles too, and written.
use alphabet::Alphabet;
use anyhow::anyhow;
use codec::{GuardRecord, Record, Stored};
use holdings::{Entry, Head, Shelf};
use shelve_input::MOST_BYTES;
use std::alloc::{AllocError, Global};
use stored::{decode, encode};
use table::{Draft, Rule, State};

// Ledger and lists of a shelf.
#[derive(Drop)]
pub struct Builder<G: Copy, T: Copy> {
    ledger: Vec<Entry>,
    states: Vec<State>,
    rules: Vec<Rule<G>>,
    outputs: Vec<T>,
}

// A length as an entry counts it.
fn counted(length: usize) -> anyhow::Result<u16> {
    u16::try_from(length).map_err(|_| anyhow!("a table is too large"))
}

impl<G: Copy, T: Copy> Builder<G, T> {
    pub fn new(heap: Global) -> Builder<G, T> {
        Builder {
            ledger: Vec::new(heap),
            states: Vec::new(heap),
            rules: Vec::new(heap),
            outputs: Vec::new(heap),
        }
    }

    // One table more.
    pub fn add<A: Alphabet<Guard = G, Term = T>>(
        &mut self,
        draft: &Draft<'_, A>,
    ) -> anyhow::Result<()> {
        let entry = Entry {
            states: counted(draft.states.len())?,
            rules: counted(draft.rules.len())?,
            outputs: counted(draft.outputs.len())?,
        };
        self.ledger.push(entry)?;
        self.states.extend_from_slice(draft.states)?;
        self.rules.extend_from_slice(draft.rules)?;
        self.outputs.extend_from_slice(draft.outputs)?;
        Ok(())
    }
}

// The bytes of a shelf.
fn written<A: Stored>(heap: Global, shelf: &Shelf<'_, A>) -> anyhow::Result<Vec<u8>>
where
    A::Guard: GuardRecord,
    A::Term: Record,
{
    let mut bytes = vec![in heap; 0u8; MOST_BYTES]?;
    let size = encode(shelf, bytes.as_mut_slice()).map_err(|_| anyhow!(
        "an example is no sound shelf"
    ))?;
    bytes.truncate(size);
    Ok(bytes)
}

// The bytes of the shelf put together, which are read back and written again to see that they stay.
pub fn stored<A: Stored>(
    heap: Global,
    bodies: &mut Builder<A::Guard, A::Term>,
) -> anyhow::Result<Vec<u8>>
where
    A::Guard: GuardRecord,
    A::Term: Record,
{
    let head = Head {
        holdings: bodies.ledger.len(),
        states: bodies.states.len(),
        rules: bodies.rules.len(),
        outputs: bodies.outputs.len(),
    };
    let mut shelf: Shelf<'_, A> = Shelf {
        head,
        ledger: bodies.ledger.as_mut_slice(),
        states: bodies.states.as_mut_slice(),
        rules: bodies.rules.as_mut_slice(),
        outputs: bodies.outputs.as_mut_slice(),
    };
    let bytes = written(heap, &shelf)?;
    decode(bytes.as_slice(), &mut shelf).map_err(|_| anyhow!("an example cannot be read"))?;
    let again = written(heap, &shelf)?;
    if again.as_slice() != bytes.as_slice() {
        return Err(anyhow!("an example does not stay what it was"));
    }
    Ok(bytes)
}

const DIGITS: [u8; 16] = *b"0123456789ABCDEF";

// Two hexadecimal digits: a format of each byte took a fifth of the whole run.
pub fn push_hex(line: &mut String, byte: u8) -> Result<(), AllocError> {
    line.push(DIGITS[(byte / 16) as usize] as char)?;
    line.push(DIGITS[(byte % 16) as usize] as char)
}
