// The rules of the joined filter: pairs of states are taken in the order in which they were met.
#![tactic(auto)]

ghost use Rattle.std.specs.Prelude.{◌≡◌, ◌<◌, ◌≤◌, [], ◌∷◌, map, length};
ghost use Rattle.alphabet.specs.Model.{SoundGuard};
ghost use Rattle.table.specs.Table.{table_of};
ghost use Rattle.queue.specs.Held.{entries, room};
ghost use Rattle.join_laws.specs.Lines.{lines_of};
ghost use Rattle.join_laws.specs.Ways.{ways};
ghost use Rattle.join_laws.specs.Joined.{aimed, ways_at};
ghost use Rattle.join_ways.specs.Written.{Same};
ghost use Rattle.join_ways.specs.Added.{lines};
ghost use Rattle.join_rules.specs.PairRules.{NumbersSince, Takes, Explores};

use alphabet::Alphabet;
use join_pairs::{Pair, number_targets};
use join_ways::{Course, SliceVec, Span, TooLarge, add_ways};
use queue::Queue;
use table::{Filter, Rule, final_total};

// Meets the pairs that the rules from a number on lead to, and gives these rules their numbers.
fn number_since<G: Copy>(
    queue: &mut Queue<'_, Pair>,
    first: u16,
    rules: &mut SliceVec<'_, Rule<G>>,
    before: usize,
) -> Result<(), TooLarge>
    requires few { room queue.old ≤ 65536 }
    requires before { before ≤ rules.old.count }
    ensures numbers { NumbersSince first before (entries queue.old) (room queue.old) rules.old (entries queue.new) rules.new result }
    ensures taken { queue.new.taken ≡ queue.old.taken }
    ensures room { room queue.new ≡ room queue.old }
    ensures same { Same rules.old rules.new }
{
    let after = rules.count;
    let items = &mut *rules.items;
    number_targets(queue, first, &mut items[before..after])?;
    Ok(())
}

// The queue, the path and the two lists are parameters of their own here, since each is a stretch of the caller's memory; that
// a queue holds at most 64 pairs is asked beside it, since queues of other sizes are made elsewhere.
// Writes the ways that follow a rule of the first filter, and meets the pairs that they lead to where the first goes on
// to a state.
fn add_line<A: Alphabet>(
    course: &Course<'_, A>,
    next: u16,
    state: u16,
    guard: A::Guard,
    queue: &mut Queue<'_, Pair>,
    path: &mut [Span],
    rules: &mut SliceVec<'_, Rule<A::Guard>>,
    outputs: &mut SliceVec<'_, A::Term>,
) -> Result<(), TooLarge>
    requires guard { SoundGuard A.model guard }
    requires few { room queue.old ≤ 64 }
    requires path { length course.now.terms.now ≤ length path.old }
    ensures takes { Takes course.now.number (map (aimed next) (ways A.model (lines_of (table_of course.now.second.now.draft)) course.now.terms.now state guard)) (entries queue.old) (room queue.old) (lines rules.old outputs.old) (entries queue.new) (lines rules.new outputs.new) result }
    ensures taken { queue.new.taken ≡ queue.old.taken }
    ensures room { room queue.new ≡ room queue.old }
    ensures same_rules { Same rules.old rules.new }
    ensures same_outputs { Same outputs.old outputs.new }
{
    let before = rules.count;
    add_ways(course, 0, state, guard, path, &mut *rules, outputs)?;
    number_since(queue, next, rules, before)?;
    Ok(())
}

// Writes the rules of a pair, and meets the pairs that they lead to.
fn add_pair<'x, A: Alphabet>(
    first: &'x Filter<'x, A>,
    second: &'x Filter<'x, A>,
    pair: Pair,
    number: u16,
    queue: &mut Queue<'_, Pair>,
    path: &mut [Span],
    rules: &mut SliceVec<'_, Rule<A::Guard>>,
    outputs: &mut SliceVec<'_, A::Term>,
) -> Result<(), TooLarge>
    requires few { room queue.old ≤ 64 }
    requires path { 32 ≤ length path.old }
    ensures takes { Takes number (ways_at A.model (table_of first.now.draft) (table_of second.now.draft) pair) (entries queue.old) (room queue.old) (lines rules.old outputs.old) (entries queue.new) (lines rules.new outputs.new) result }
    ensures taken { queue.new.taken ≡ queue.old.taken }
    ensures room { room queue.new ≡ room queue.old }
    ensures same_rules { Same rules.old rules.new }
    ensures same_outputs { Same outputs.old outputs.new }
{
    let begins = final_total(second.draft.states);
    let mut start = final_total(first.draft.states);
    for rule in first.draft.rules {
        let from = start;
        start = from + rule.outputs as usize;
        if rule.state == pair.0 {
            let course = Course {
                second,
                first: begins,
                terms: &first.draft.outputs[from..start],
                number,
            };
            add_line(
                &course, rule.next, pair.1, rule.guard, queue, path, rules, outputs,
            )?;
        }
    }
    Ok(())
}

// Takes the waiting pairs, those that are met on the way too, and writes their rules.
pub fn explore<'x, A: Alphabet>(
    first: &'x Filter<'x, A>,
    second: &'x Filter<'x, A>,
    queue: &mut Queue<'_, Pair>,
    path: &mut [Span],
    rules: &mut SliceVec<'_, Rule<A::Guard>>,
    outputs: &mut SliceVec<'_, A::Term>,
) -> Result<(), TooLarge>
    requires start { entries queue.old ≡ (0, 0) ∷ [] }
    requires waits { queue.old.taken ≡ 0 }
    requires fits { 1 ≤ room queue.old }
    requires few { room queue.old ≤ 64 }
    requires path { 32 ≤ length path.old }
    ensures explores { Explores A.model (table_of first.now.draft) (table_of second.now.draft) (room queue.old) (lines rules.old outputs.old) (entries queue.new) (lines rules.new outputs.new) result }
    ensures room { room queue.new ≡ room queue.old }
    ensures same_rules { Same rules.old rules.new }
    ensures same_outputs { Same outputs.old outputs.new }
{
    // a `while`, since the queue gets new pairs in each turn
    while let Some((number, pair)) = queue.next() {
        add_pair(
            first,
            second,
            pair,
            number as u16,
            queue,
            path,
            rules,
            outputs,
        )?;
    }
    Ok(())
}
