// The calls on a shelf in memory of its own, with scratch of chosen lengths. Each sees to it that nothing changes but
// what its answer says.
use crate::memory::{Memory, filled};
use alphabet::Alphabet;
use answers::{Comparison, Fault};
use filter::Outcome;
use holdings::{Head, Shelf};
use join_pairs::Pair;
use shelf::compare::compare;
use shelf::file::file;
use shelf::join_holdings::join;
use shelf::lent::{JoinLists, Scratch};
use shelf::transduce::transduce;
use std::alloc::{AllocError, Global};
use std::process::Abort;
use std::test::Fail;
use steps::{Side, Step, Visit};
use table::{Draft, Rule, State};

// How long the scratch is that a call is lent.
#[derive(Clone, Copy)]
pub struct Lent {
    pub steps: usize,
    pub symbols: usize,
}

pub const PLENTY: Lent = Lent {
    steps: 100,
    symbols: 6000,
};

// How long the lists for a joined filter are.
#[derive(Clone, Copy)]
pub struct Lists {
    pub states: usize,
    pub rules: usize,
    pub outputs: usize,
    pub pairs: usize,
}

pub const LONG: Lists = Lists {
    states: 64,
    rules: 64,
    outputs: 128,
    pairs: 64,
};

// No symbol of any alphabet.
pub const SPARE: u32 = 0xffff_ffff;

const SIDE: Side = Side {
    state: None,
    from: 3,
    to: 5,
    total: 7,
};

const BLANK: Step = Step {
    parent: 9,
    symbol: 11,
    left: SIDE,
    right: SIDE,
    visit: Visit::Second,
};

// A shelf over the memory; its head is handed back by `head_of`.
fn shelf_over<'m, A: Alphabet>(memory: &'m mut Memory<A::Guard, A::Term>) -> Shelf<'m, A> {
    Shelf {
        head: memory.head,
        ledger: memory.ledger.as_mut_slice(),
        states: memory.states.as_mut_slice(),
        rules: memory.rules.as_mut_slice(),
        outputs: memory.outputs.as_mut_slice(),
    }
}

fn head_of<A: Alphabet>(shelf: Shelf<'_, A>) -> Head {
    let Shelf {
        head,
        ledger: _,
        states: _,
        rules: _,
        outputs: _,
    } = shelf;
    head
}

// Scratch in memory of its own.
#[derive(Drop)]
struct Desk {
    steps: Vec<Step>,
    symbols: Vec<u32>,
}

fn desk_of(heap: Global, lent: Lent) -> Result<Desk, AllocError> {
    Ok(Desk {
        steps: filled(heap, BLANK, lent.steps)?,
        symbols: filled(heap, SPARE, lent.symbols)?,
    })
}

fn lend<'d>(desk: &'d mut Desk) -> Scratch<'d> {
    Scratch {
        steps: desk.steps.as_mut_slice(),
        symbols: desk.symbols.as_mut_slice(),
    }
}

// The lists for a joined filter, in memory of their own.
#[derive(Drop)]
struct OwnLists<G: Copy, T: Copy> {
    states: Vec<State>,
    rules: Vec<Rule<G>>,
    outputs: Vec<T>,
    pairs: Vec<Pair>,
}

fn lists_of<G: Copy, T: Copy>(
    heap: Global,
    lists: Lists,
    rule: Rule<G>,
    term: T,
) -> Result<OwnLists<G, T>, AllocError> {
    Ok(OwnLists {
        states: filled(heap, State { mark: 9, finals: 9 }, lists.states)?,
        rules: filled(heap, rule, lists.rules)?,
        outputs: filled(heap, term, lists.outputs)?,
        pairs: filled(heap, (7, 7), lists.pairs)?,
    })
}

fn lend_lists<'l, A: Alphabet>(lists: &'l mut OwnLists<A::Guard, A::Term>) -> JoinLists<'l, A> {
    JoinLists {
        states: lists.states.as_mut_slice(),
        rules: lists.rules.as_mut_slice(),
        outputs: lists.outputs.as_mut_slice(),
        pairs: lists.pairs.as_mut_slice(),
    }
}

// Whether every symbol from a place on is spare.
fn is_spare_from(list: &[u32], from: usize) -> bool {
    for symbol in list.iter().skip(from) {
        if *symbol != SPARE {
            return false;
        }
    }
    true
}

// A refusal leaves the memory as it was; else there is one more holding, whose number is answered.
fn check_answer<G: Copy + PartialEq, T: Copy + PartialEq>(
    rt: &impl Abort,
    before: &Memory<G, T>,
    after: &Memory<G, T>,
    answer: Result<usize, Fault>,
) -> Result<(), Fail> {
    match answer {
        Ok(number) => {
            assert!(rt; number == after.head.holdings);
            assert!(rt; after.has_one_more(before));
            Ok(())
        }
        Err(_) => {
            assert!(rt; after.is_same(before));
            Ok(())
        },
    }
}

pub fn file_on<A: Alphabet>(
    rt: &impl Abort,
    heap: Global,
    memory: &mut Memory<A::Guard, A::Term>,
    draft: &Draft<'_, A>,
    lent: Lent,
) -> Result<Result<usize, Fault>, Fail>
where
    A::Guard: PartialEq,
    A::Term: PartialEq,
{
    let before = memory.copy(heap)?;
    let mut desk = desk_of(heap, lent)?;
    let mut shelf: Shelf<'_, A> = shelf_over(&mut *memory);
    let answer = file(&mut shelf, draft, lend(&mut desk));
    memory.head = head_of(shelf);
    check_answer(rt, &before, &*memory, answer)?;
    Ok(answer)
}

pub fn join_on<A: Alphabet>(
    rt: &impl Abort,
    heap: Global,
    memory: &mut Memory<A::Guard, A::Term>,
    first: usize,
    second: usize,
    lists: Lists,
    lent: Lent,
) -> Result<Result<usize, Fault>, Fail>
where
    A::Guard: PartialEq,
    A::Term: PartialEq,
{
    let before = memory.copy(heap)?;
    let mut desk = desk_of(heap, lent)?;
    let mut lists = lists_of(heap, lists, memory.rule, memory.term)?;
    let mut shelf: Shelf<'_, A> = shelf_over(&mut *memory);
    let answer = join(
        &mut shelf,
        first,
        second,
        lend_lists(&mut lists),
        lend(&mut desk),
    );
    memory.head = head_of(shelf);
    check_answer(rt, &before, &*memory, answer)?;
    Ok(answer)
}

// The text that a comparison found, or none. The witness holds nothing else.
fn text_found(
    rt: &impl Abort,
    answer: Result<Comparison, Fault>,
    witness: Vec<u32>,
) -> Result<Result<Option<Vec<u32>>, Fault>, Fail> {
    let count = match answer {
        Ok(Comparison::Distinguished(count)) => count,
        _ => 0,
    };
    assert!(rt; is_spare_from(witness.as_slice(), count));
    match answer {
        Ok(Comparison::Equivalent) => Ok(Ok(None)),
        Ok(Comparison::Distinguished(_)) => {
            let mut text = witness;
            text.truncate(count);
            Ok(Ok(Some(text)))
        }
        Err(fault) => Ok(Err(fault)),
    }
}

// Answers the text that distinguishes two holdings, or none; the witness has this length.
pub fn compare_on<A: Alphabet>(
    rt: &impl Abort,
    heap: Global,
    memory: &mut Memory<A::Guard, A::Term>,
    first: usize,
    second: usize,
    lent: Lent,
    length: usize,
) -> Result<Result<Option<Vec<u32>>, Fault>, Fail>
where
    A::Guard: PartialEq,
    A::Term: PartialEq,
{
    let before = memory.copy(heap)?;
    let mut desk = desk_of(heap, lent)?;
    let mut witness = filled(heap, SPARE, length)?;
    let shelf: Shelf<'_, A> = shelf_over(&mut *memory);
    let answer = compare(
        &shelf,
        first,
        second,
        lend(&mut desk),
        witness.as_mut_slice(),
    );
    memory.head = head_of(shelf);
    assert!(rt; memory.is_same(&before));
    text_found(rt, answer, witness)
}

// Answers the outcome with what was written; the output has this length.
pub fn transduce_on<A: Alphabet>(
    rt: &impl Abort,
    heap: Global,
    memory: &mut Memory<A::Guard, A::Term>,
    number: usize,
    text: &[u32],
    length: usize,
) -> Result<(Result<Outcome, Fault>, Vec<u32>), Fail>
where
    A::Guard: PartialEq,
    A::Term: PartialEq,
{
    let before = memory.copy(heap)?;
    let mut output = filled(heap, SPARE, length)?;
    let shelf: Shelf<'_, A> = shelf_over(&mut *memory);
    let answer = transduce(&shelf, number, text, output.as_mut_slice());
    memory.head = head_of(shelf);
    assert!(rt; memory.is_same(&before));
    let written = match answer {
        Ok(Outcome::Written { count, .. }) => count,
        _ => 0,
    };
    assert!(rt; is_spare_from(output.as_slice(), written));
    output.truncate(written);
    Ok((answer, output))
}

// The fault of an answer, or none.
pub fn fault_of<T: Drop>(answer: Result<T, Fault>) -> Option<Fault> {
    match answer {
        Ok(_) => None,
        Err(fault) => Some(fault),
    }
}

// Whether comparing found this text.
pub fn is_text(answer: Result<Option<Vec<u32>>, Fault>, text: &[u32]) -> bool {
    match answer {
        Ok(Some(found)) => found.as_slice() == text,
        _ => false,
    }
}

// Whether comparing found no text.
pub fn is_equivalent(answer: Result<Option<Vec<u32>>, Fault>) -> bool {
    match answer {
        Ok(None) => true,
        _ => false,
    }
}
