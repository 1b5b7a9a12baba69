// Putting the join of two holdings on a shelf, by way of lists of the caller.
#![tactic(auto)]

ghost use Rattle.std.specs.Prelude.{◌≡◌, ◌<◌, ◌≤◌, length, Ok};
ghost use Rattle.table.specs.Table.{table_of};
ghost use Rattle.table.specs.Check.{checked};
ghost use Rattle.holdings.specs.Memory.{memory_of, holding};
ghost use Rattle.holdings.specs.Check.{checked_shelf};
ghost use Rattle.join_laws.specs.Joined.{joined};
ghost use Rattle.join.specs.Filled.{Answers};
ghost use Rattle.shelf_law.specs.Holdings.{Has};
ghost use Rattle.shelf_law.specs.Scratch.{scratch_of, lists_of};
ghost use Rattle.shelf_law.specs.Calls.{Joining, Does};
ghost use Rattle.joining.specs.Fronts.{front_of_lem};

use alphabet::Alphabet;
use answers::Fault;
use holdings::{Readable, Shelf};
use join::{Sizes, join as compose};
use join_pairs::Pair;
use join_ways::TooLarge;
use placing::place::place;
use steps::Step;
use table::{Draft, Filter, Rule, State};

// Writes the joined filter of the holdings behind i and j others to the front of three lists.
fn compose_views<A: Alphabet>(
    shelf: &Readable<'_, '_, A>,
    i: usize,
    j: usize,
    states: &mut [State],
    rules: &mut [Rule<A::Guard>],
    outputs: &mut [A::Term],
    pairs: &mut [Pair],
) -> Result<Sizes, TooLarge>
    requires first { i < shelf.now.shelf.now.head.holdings }
    requires second { j < shelf.now.shelf.now.head.holdings }
    ensures { Answers (joined A.model (holding (memory_of shelf.now.shelf.now) i) (holding (memory_of shelf.now.shelf.now) j)) (length pairs.old) states.old states.new rules.old rules.new outputs.old outputs.new result }
{
    let first = shelf.filter(i);
    let second = shelf.filter(j);
    compose(&first, &second, states, rules, outputs, pairs)
}

// The fronts of three lists as a filter.
fn front_of<'b, A: Alphabet>(
    states: &'b [State],
    rules: &'b [Rule<A::Guard>],
    outputs: &'b [A::Term],
    sizes: Sizes,
) -> Filter<'b, A>
    requires states { sizes.states ≤ length states.now }
    requires rules { sizes.rules ≤ length rules.now }
    requires outputs { sizes.outputs ≤ length outputs.now }
    requires sound { checked A.model (front_of_lem states.now rules.now outputs.now sizes) ≡ Ok tt }
    ensures { table_of result.draft ≡ front_of_lem states.now rules.now outputs.now sizes }
{
    let Sizes {
        states: last_state,
        rules: last_rule,
        outputs: last_output,
    } = sizes;
    let draft = Draft {
        states: &states[0..last_state],
        rules: &rules[0..last_rule],
        outputs: &outputs[0..last_output],
    };
    Filter { draft }
}

// Puts the joined filter of the holdings of two numbers on the shelf, by way of the lists.
pub fn place_joined<A: Alphabet>(
    shelf: &mut Shelf<'_, A>,
    first: usize,
    second: usize,
    states: &mut [State],
    rules: &mut [Rule<A::Guard>],
    outputs: &mut [A::Term],
    pairs: &mut [Pair],
    steps: &mut [Step],
    symbols: &mut [u32],
) -> Result<usize, Fault>
    requires readable { checked_shelf A.model (memory_of shelf.old) ≡ Ok tt }
    requires first { Has (memory_of shelf.old) first }
    requires second { Has (memory_of shelf.old) second }
    ensures { Does A.model (scratch_of (length steps.old) (length symbols.old)) (memory_of shelf.old) (Joining first second (lists_of (length states.old) (length rules.old) (length outputs.old) (length pairs.old))) result (memory_of shelf.new) }
{
    let (i, j) = (first - 1, second - 1);
    let readable = Readable { shelf: &*shelf };
    // no `From` turns the one error into the other: this crate has neither of the two types
    let Ok(sizes) = compose_views(
        &readable,
        i,
        j,
        &mut *states,
        &mut *rules,
        &mut *outputs,
        pairs,
    ) else {
        return Err(Fault::TooLarge);
    };
    let filter = front_of(&*states, &*rules, &*outputs, sizes);
    place(shelf, &filter, steps, symbols)
}
