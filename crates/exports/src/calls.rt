// The exported calls. A table is three flat lists. A caller in C reads an answer and no Result: a call that has no memory
// for a table answers so with `let else`, since `?` would return an error.
ghost use Rattle.exports.specs.Flats.{flat_table};
ghost use Rattle.exports.specs.Calls.{Checks, Transduced, Compared};
ghost use Rattle.exports.specs.Joins.{JoinedTo};

use crate::answer::{Answer, NO_MEMORY, check_answer, compare_answer, transduce_answer};
use crate::flat::{FlatRule, FlatState, FlatTerm};
use crate::joining::{join_answer, join_drafts};
use crate::owned::read;
use comparing::compare_drafts;
use filter::transduce;
use std::alloc::Global;

// Checks a table: kind 0 where it is sound, else its first fault.
#[unsafe(no_mangle)]
pub extern "C" fn cutamllay_check(
    heap: Global,
    states: &[FlatState],
    rules: &[FlatRule],
    outputs: &[FlatTerm],
) -> Answer
    ensures { Checks (flat_table states.now rules.now outputs.now) result }
{
    let Ok(table) = read(heap, states, rules, outputs) else {
        return NO_MEMORY;
    };
    let draft = table.draft();
    check_answer(draft.check())
}

// Transduces a text: kind 0 with the state reached and the number of symbols written, kind 1 with the position where the
// text is rejected.
#[unsafe(no_mangle)]
pub extern "C" fn cutamllay_transduce(
    heap: Global,
    states: &[FlatState],
    rules: &[FlatRule],
    outputs: &[FlatTerm],
    text: &[u32],
    out: &mut [u32],
) -> Answer
    ensures { Transduced (flat_table states.now rules.now outputs.now) text.now out.old out.new result }
{
    let Ok(table) = read(heap, states, rules, outputs) else {
        return NO_MEMORY;
    };
    let draft = table.draft();
    transduce_answer(transduce(&draft, text, out))
}

// Compares two filters: kind 0 where they are equivalent; kind 1 with the length of the earliest of the shortest texts
// that distinguish them, which is written to the front of the witness; kind 5 with that length where the witness is too
// short; kinds 2 and 4 where the first or the second is unsound.
#[unsafe(no_mangle)]
pub extern "C" fn cutamllay_compare(
    heap: Global,
    first_states: &[FlatState],
    first_rules: &[FlatRule],
    first_outputs: &[FlatTerm],
    second_states: &[FlatState],
    second_rules: &[FlatRule],
    second_outputs: &[FlatTerm],
    witness: &mut [u32],
) -> Answer
    ensures { Compared (flat_table first_states.now first_rules.now first_outputs.now) (flat_table second_states.now second_rules.now second_outputs.now) witness.old witness.new result }
{
    let Ok(first) = read(heap, first_states, first_rules, first_outputs) else {
        return NO_MEMORY;
    };
    let Ok(second) = read(heap, second_states, second_rules, second_outputs) else {
        return NO_MEMORY;
    };
    let left = first.draft();
    let right = second.draft();
    compare_answer(compare_drafts(heap, &left, &right), witness)
}

// Joins two filters: kind 0 with the numbers of states, rules and outputs of the joined filter, which are written to the
// front of the three lists; kind 5 with these numbers where a list is too short; kind 1 where the joined filter is over a
// limit; kinds 2 and 4 where the first or the second is unsound.
#[unsafe(no_mangle)]
pub extern "C" fn cutamllay_join(
    heap: Global,
    first_states: &[FlatState],
    first_rules: &[FlatRule],
    first_outputs: &[FlatTerm],
    second_states: &[FlatState],
    second_rules: &[FlatRule],
    second_outputs: &[FlatTerm],
    states: &mut [FlatState],
    rules: &mut [FlatRule],
    outputs: &mut [FlatTerm],
) -> Answer
    ensures { JoinedTo (flat_table first_states.now first_rules.now first_outputs.now) (flat_table second_states.now second_rules.now second_outputs.now) states.old states.new rules.old rules.new outputs.old outputs.new result }
{
    let Ok(first) = read(heap, first_states, first_rules, first_outputs) else {
        return NO_MEMORY;
    };
    let Ok(second) = read(heap, second_states, second_rules, second_outputs) else {
        return NO_MEMORY;
    };
    let left = first.draft();
    let right = second.draft();
    join_answer(join_drafts(heap, &left, &right), states, rules, outputs)
}
