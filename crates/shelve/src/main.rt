// Files the bodies of a stored shelf, and prints what became of each and which texts tell the holdings apart.
//
// Standard input is one stored shelf of at most 16,384 bytes. `docs/FORMAT.md` describes the file and what is printed.
#![tactic(auto)]

mod lines;

use anyhow::anyhow;
use codec::{GuardRecord, Record};
use holdings::views::MOST_HOLDINGS;
use holdings::{Entry, Shelf};
use lines::{Printed, print_all};
use marks::Marks;
use ranges::{Bytes, CodePoints};
use shelf::open::open;
use shelve_input::{Kind, MOST_BYTES, kind_of};
use shelving::ShelveFault;
use shelving::shelve::shelve;
use std::alloc::{AllocError, Global};
use std::fmt::Display;
use std::io::Read;
use stored::decode;
use table::{Rule, State};

// How many states, rules and outputs a file of 16,384 bytes can have: they have 3, 14 and 5 bytes.
const MOST_STATES: usize = 5461;

const MOST_RULES: usize = 1170;

const MOST_OUTPUTS: usize = 3276;

// The scratch for comparing.
const STEPS: usize = 512;

const SYMBOLS: usize = 12288;

// Ledger and lists for a file.
#[derive(Drop)]
struct Lists<G: Copy, T: Copy> {
    ledger: Vec<Entry>,
    states: Vec<State>,
    rules: Vec<Rule<G>>,
    outputs: Vec<T>,
}

impl<G: Copy, T: Copy> Lists<G, T> {
    // Lists as long as a file can need, filled with this guard and term. Entries have no default, since none is the
    // usual one.
    fn new(heap: Global, guard: G, term: T) -> Result<Lists<G, T>, AllocError> {
        let entry = Entry {
            states: 0,
            rules: 0,
            outputs: 0,
        };
        let rule = Rule {
            state: 0,
            next: 0,
            outputs: 0,
            guard,
        };
        Ok(Lists {
            ledger: vec![in heap; entry; MOST_HOLDINGS]?,
            states: vec![in heap; State { mark: 0, finals: 0 }; MOST_STATES]?,
            rules: vec![in heap; rule; MOST_RULES]?,
            outputs: vec![in heap; term; MOST_OUTPUTS]?,
        })
    }
}

// Files the bodies of a file of an alphabet, and prints the lines.
fn run<A: Printed>(rt: &HostRuntime, file: &[u8]) -> anyhow::Result<()>
where
    A::Guard: GuardRecord,
    A::Term: Record,
{
    let heap = rt.alloc();
    let (guard, term) = A::spare();
    let mut lists = Lists::new(heap, guard, term)?;
    let mut bodies: Shelf<'_, A> = open(
        lists.ledger.as_mut_slice(),
        lists.states.as_mut_slice(),
        lists.rules.as_mut_slice(),
        lists.outputs.as_mut_slice(),
    );
    if let Err(fault) = decode(file, &mut bodies) {
        return refuse(rt, &fault.code());
    }
    match shelve(heap, &bodies, STEPS, SYMBOLS) {
        Ok(shelved) => print_all::<A>(rt, &shelved),
        Err(ShelveFault::Misfit) => Err(anyhow!("the file does not fit the lists")),
        Err(ShelveFault::NoMemory) => Err(anyhow!("not enough memory")),
    }
}

// Says that the file is refused, by the number and the place of its fault.
fn refuse(rt: &HostRuntime, code: &impl Display) -> anyhow::Result<()> {
    println!(rt; "file refused {code}")?;
    Ok(())
}

// Reads a file by the alphabet that its first byte names.
fn read(rt: &HostRuntime, file: &[u8]) -> anyhow::Result<()> {
    match kind_of(file) {
        Ok(Kind::Bytes) => run::<Bytes>(rt, file),
        Ok(Kind::CodePoints) => run::<CodePoints>(rt, file),
        Ok(Kind::Marks) => run::<Marks>(rt, file),
        Err(fault) => refuse(rt, &fault.code()),
    }
}

// One byte more than a file may have shows that it is too long.
fn main(rt: HostRuntime) -> anyhow::Result<()> {
    let mut file = Vec::new(rt.alloc());
    rt.stdin()
        .take(MOST_BYTES as u64 + 1)
        .read_to_end(&mut file)?;
    read(&rt, file.as_slice())
}
