// Compares large filters over code points, as a run to be timed: two cycles of states, and two tables of 64 states and
// 1,024 rules of which the second is the first with its states and rules in another order.
#![tactic(auto)]

use anyhow::anyhow;
use comparing::{CompareFault, compare_drafts};
use ranges::{CodePoints, Range, RangeTerm};
use std::alloc::{AllocError, Global};
use table::{Draft, Rule, State};

const ROW: u32 = 16;

// How many code points one of a state's 16 rules holds.
const SPAN: u32 = 69632;

const COUNT: u16 = 64;

// A table in memory of its own: a program shares no type of tests or of calls from C, and this one is short.
#[derive(Drop)]
struct Table {
    states: Vec<State>,
    rules: Vec<Rule<Range>>,
    outputs: Vec<RangeTerm>,
}

impl Table {
    fn draft(&self) -> Draft<'_, CodePoints> {
        Draft {
            states: self.states.as_slice(),
            rules: self.rules.as_slice(),
            outputs: self.outputs.as_slice(),
        }
    }
}

// A cycle of states over the letter a, of which only the first accepts.
fn cycle(heap: Global, count: u16) -> Result<Table, AllocError> {
    let mut states = Vec::new(heap);
    let mut rules = Vec::new(heap);
    for state in 0..count {
        let mark = if state == 0 { 1 } else { 0 };
        states.push(State { mark, finals: 0 })?;
        let next = if state < count - 1 { state + 1 } else { 0 };
        let guard = Range { low: 97, high: 97 };
        rules.push(Rule {
            state,
            next,
            outputs: 0,
            guard,
        })?;
    }
    Ok(Table {
        states,
        rules,
        outputs: Vec::new(heap),
    })
}

// The order of a table's states and of the rules of a state.
#[derive(Clone, Copy)]
enum Order {
    Rising,
    // From the other end, with state 0 kept.
    Turned,
}

// The number that a state has in this order.
fn numbered(state: u16, order: Order) -> u16 {
    let state = state % COUNT;
    match order {
        Order::Turned if state != 0 => COUNT - state,
        _ => state,
    }
}

// A table of 64 states with 16 rules each.
fn wide(heap: Global, order: Order) -> Result<Table, AllocError> {
    let states = vec![in heap; State { mark: 1, finals: 0 }; COUNT as usize]?;
    let mut rules = Vec::new(heap);
    let mut outputs = Vec::new(heap);
    for state in 0..COUNT {
        for place in 0..ROW {
            let part = match order {
                Order::Rising => place,
                Order::Turned => ROW - 1 - place,
            };
            let next = numbered(state * 5 + part as u16, order);
            let low = part * SPAN;
            let guard = Range {
                low,
                high: low + (SPAN - 1),
            };
            let from = numbered(state, order);
            rules.push(Rule {
                state: from,
                next,
                outputs: 2,
                guard,
            })?;
            outputs.push(RangeTerm::Shift(0))?;
            outputs.push(RangeTerm::Constant(state as u32))?;
        }
    }
    Ok(Table {
        states,
        rules,
        outputs,
    })
}

// Prints whether two tables are equivalent, or the length of the earliest text that distinguishes them.
fn report(rt: &HostRuntime, name: &str, one: &Table, other: &Table) -> anyhow::Result<()> {
    match compare_drafts(rt.alloc(), &one.draft(), &other.draft()) {
        Ok(None) => println!(rt; "{name}: equivalent")?,
        Ok(Some(text)) => {
            let length = text.len();
            println!(rt; "{name}: distinguished by a text of {length} symbols")?;
        }
        Err(CompareFault::First(_)) => println!(rt; "{name}: the first table is unsound")?,
        Err(CompareFault::Second(_)) => println!(rt; "{name}: the second table is unsound")?,
        Err(CompareFault::NoMemory) => return Err(anyhow!("not enough memory")),
    }
    Ok(())
}

fn run(rt: &HostRuntime) -> anyhow::Result<()> {
    let heap = rt.alloc();
    report(
        rt,
        "cycles of 63 and 64 states",
        &cycle(heap, 63)?,
        &cycle(heap, 64)?,
    )?;
    report(
        rt,
        "cycles of 64 states",
        &cycle(heap, 64)?,
        &cycle(heap, 64)?,
    )?;
    report(
        rt,
        "1,024 rules, turned round",
        &wide(heap, Order::Rising)?,
        &wide(heap, Order::Turned)?,
    )
}

fn main(rt: HostRuntime) -> anyhow::Result<()> {
    run(&rt)
}
