// Making a call, with scratch of its own.
use crate::filters::{Filter, build, draft_of};
use crate::lines::{compared, placed, text_of, transduced};
use crate::subject::{Output, Subject};
use crate::tour::{Call, Lent, Lists, Text};
use alphabet::Alphabet;
use holdings::Shelf;
use join_pairs::Pair;
use shelf::compare::compare;
use shelf::file::file;
use shelf::join_holdings::join;
use shelf::lent::{JoinLists, Scratch};
use shelf::transduce::transduce;
use std::alloc::{AllocError, Global};
use steps::Step;
use table::{Rule, State};

// Scratch, and the lists for a joined filter, in memory of their own.
#[derive(Drop)]
struct Desk {
    steps: Vec<Step>,
    symbols: Vec<u32>,
}

#[derive(Drop)]
struct OwnLists<G: Copy, T: Copy> {
    states: Vec<State>,
    rules: Vec<Rule<G>>,
    outputs: Vec<T>,
    pairs: Vec<Pair>,
}

fn desk_of(heap: Global, lent: Lent) -> Result<Desk, AllocError> {
    Ok(Desk {
        steps: vec![in heap; Step::default(); lent.steps]?,
        symbols: vec![in heap; 0; lent.symbols]?,
    })
}

fn lend<'d>(desk: &'d mut Desk) -> Scratch<'d> {
    Scratch {
        steps: desk.steps.as_mut_slice(),
        symbols: desk.symbols.as_mut_slice(),
    }
}

fn lists_of<A: Alphabet, S: Subject<A>>(
    heap: Global,
    lists: Lists,
) -> Result<OwnLists<A::Guard, A::Term>, AllocError> {
    let rule = Rule {
        state: 0,
        next: 0,
        outputs: 0,
        guard: S::guard(0, 0),
    };
    Ok(OwnLists {
        states: vec![in heap; State { mark: 0, finals: 0 }; lists.states]?,
        rules: vec![in heap; rule; lists.rules]?,
        outputs: vec![in heap; S::term(Output::Same); lists.outputs]?,
        pairs: vec![in heap; (0, 0); lists.pairs]?,
    })
}

fn lend_lists<'l, A: Alphabet>(lists: &'l mut OwnLists<A::Guard, A::Term>) -> JoinLists<'l, A> {
    JoinLists {
        states: lists.states.as_mut_slice(),
        rules: lists.rules.as_mut_slice(),
        outputs: lists.outputs.as_mut_slice(),
        pairs: lists.pairs.as_mut_slice(),
    }
}

fn file_on<A: Alphabet, S: Subject<A>>(
    heap: Global,
    shelf: &mut Shelf<'_, A>,
    filter: Filter,
    lent: Lent,
) -> Result<String, AllocError> {
    let table = build::<A, S>(heap, filter)?;
    let mut desk = desk_of(heap, lent)?;
    let answer = file(shelf, &draft_of(&table), lend(&mut desk));
    placed(heap, answer)
}

fn join_on<A: Alphabet, S: Subject<A>>(
    heap: Global,
    shelf: &mut Shelf<'_, A>,
    first: usize,
    second: usize,
    lists: Lists,
    lent: Lent,
) -> Result<String, AllocError> {
    let mut lists = lists_of::<A, S>(heap, lists)?;
    let mut desk = desk_of(heap, lent)?;
    let answer = join(
        shelf,
        first,
        second,
        lend_lists(&mut lists),
        lend(&mut desk),
    );
    placed(heap, answer)
}

fn compare_on<A: Alphabet, S: Subject<A>>(
    heap: Global,
    shelf: &Shelf<'_, A>,
    first: usize,
    second: usize,
    lent: Lent,
    length: usize,
) -> Result<String, AllocError> {
    let mut desk = desk_of(heap, lent)?;
    let mut witness = vec![in heap; 0; length]?;
    let answer = compare(
        shelf,
        first,
        second,
        lend(&mut desk),
        witness.as_mut_slice(),
    );
    compared::<A, S>(heap, answer, witness)
}

fn transduce_on<A: Alphabet, S: Subject<A>>(
    heap: Global,
    shelf: &Shelf<'_, A>,
    number: usize,
    text: Text,
    length: usize,
) -> Result<String, AllocError> {
    let text = text_of::<A, S>(heap, text)?;
    let mut output = vec![in heap; 0; length]?;
    let answer = transduce(shelf, number, text.as_slice(), output.as_mut_slice());
    transduced::<A, S>(heap, answer, output)
}

// Exchanges rule 1 for the last rule of the list, which is spare.
fn exchange_rule<A: Alphabet>(shelf: &mut Shelf<'_, A>) {
    let count = shelf.rules.len();
    if count > 1 {
        shelf.rules.swap(1, count - 1);
    }
}

// Makes a call, and says what was answered.
pub fn answer<A: Alphabet, S: Subject<A>>(
    heap: Global,
    shelf: &mut Shelf<'_, A>,
    call: Call,
) -> Result<String, AllocError> {
    match call {
        Call::File(filter, lent) => file_on::<A, S>(heap, shelf, filter, lent),
        Call::Join(first, second, lists, lent) => {
            join_on::<A, S>(heap, shelf, first, second, lists, lent)
        }
        Call::Compare(first, second, lent, length) => {
            compare_on::<A, S>(heap, &*shelf, first, second, lent, length)
        }
        Call::Transduce(number, text, length) => {
            transduce_on::<A, S>(heap, &*shelf, number, text, length)
        }
        Call::ExchangeRule => {
            exchange_rule(shelf);
            String::from_str(heap, "done")
        }
        Call::Miscount => {
            shelf.head.outputs ^= 1;
            String::from_str(heap, "done")
        }
    }
}
