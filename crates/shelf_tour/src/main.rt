// Goes through a long sequence of calls on a shelf, over bytes, code points and marks, and prints for each call what was
// asked and what was answered.
#![tactic(auto)]

mod calls;
mod filters;
mod lines;
mod subject;
mod tour;

use alphabet::Alphabet;
use calls::answer;
use filters::Filter;
use holdings::{Entry, Shelf};
use lines::asked;
use marks::Marks;
use ranges::{Bytes, CodePoints};
use shelf::open::open;
use subject::{ByteSubject, CodePointSubject, MarkSubject, Output, Subject};
use table::{Rule, State};
use tour::{Call, PLENTY, TOUR};

// Makes one call and prints a line.
fn make<A: Alphabet, S: Subject<A>>(
    rt: &HostRuntime,
    shelf: &mut Shelf<'_, A>,
    call: Call,
) -> anyhow::Result<()> {
    let heap = rt.alloc();
    let question = asked::<A, S>(heap, call)?;
    let reply = answer::<A, S>(heap, shelf, call)?;
    println!(rt; "  {question}: {reply}")?;
    Ok(())
}

// Makes the calls of the tour, and then files more filters than a shelf holds.
fn make_all<A: Alphabet, S: Subject<A>>(
    rt: &HostRuntime,
    shelf: &mut Shelf<'_, A>,
) -> anyhow::Result<()> {
    for call in &TOUR {
        make::<A, S>(rt, shelf, *call)?;
    }
    for symbol in 4..13 {
        make::<A, S>(rt, shelf, Call::File(Filter::Only(symbol), PLENTY))?;
    }
    Ok(())
}

// Opens a shelf over one alphabet, and makes the calls.
fn run<A: Alphabet, S: Subject<A>>(rt: &HostRuntime) -> anyhow::Result<()> {
    let heap = rt.alloc();
    let name = S::name();
    println!(rt; "{name}")?;
    let spare = Entry {
        states: 7,
        rules: 7,
        outputs: 7,
    };
    let rule = Rule {
        state: 0,
        next: 0,
        outputs: 1,
        guard: S::guard(1, 0),
    };
    let mut ledger = vec![in heap; spare; 18]?;
    let mut states = vec![in heap; State { mark: 9, finals: 9 }; 40]?;
    let mut rules = vec![in heap; rule; 60]?;
    let mut outputs = vec![in heap; S::term(Output::Same); 90]?;
    let mut shelf: Shelf<'_, A> = open(
        ledger.as_mut_slice(),
        states.as_mut_slice(),
        rules.as_mut_slice(),
        outputs.as_mut_slice(),
    );
    let done = make_all::<A, S>(rt, &mut shelf);
    let Shelf {
        head: _,
        ledger: _,
        states: _,
        rules: _,
        outputs: _,
    } = shelf;
    done
}

fn run_all(rt: &HostRuntime) -> anyhow::Result<()> {
    run::<Bytes, ByteSubject>(rt)?;
    run::<CodePoints, CodePointSubject>(rt)?;
    run::<Marks, MarkSubject>(rt)
}

fn main(rt: HostRuntime) -> anyhow::Result<()> {
    run_all(&rt)
}
