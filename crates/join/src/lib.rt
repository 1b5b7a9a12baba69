// Joining two filters: the table of their composition.
#![tactic(auto)]

ghost use Rattle.std.specs.Prelude.{◌≡◌, ◌≤◌, [], ◌∷◌, length};
ghost use Rattle.table.specs.Table.{table_of};
ghost use Rattle.queue.specs.Held.{entries, room};
ghost use Rattle.join_laws.specs.Joined.{joined};
ghost use Rattle.join_laws.specs.Theorems.{Joins};
ghost use Rattle.join.specs.Filled.{Fills, Answers};

use alphabet::Alphabet;
use join_pairs::Pair;
use join_rules::explore;
use join_states::add_states;
use join_ways::{SliceVec, Span, TooLarge};
use queue::Queue;
use table::check::{MOST_OUTPUTS, MOST_RULES, MOST_STATES};
use table::{Filter, Rule, State};

// How many states, rules and outputs a filter has.
#[derive(Clone, Copy)]
pub struct Sizes {
    pub states: usize,
    pub rules: usize,
    pub outputs: usize,
}

// Writes the joined filter to the front of three lists, which are within the limits. In the queue waits the pair (0, 0).
fn fill<'x, A: Alphabet>(
    first: &'x Filter<'x, A>,
    second: &'x Filter<'x, A>,
    states: &mut [State],
    rules: &mut [Rule<A::Guard>],
    outputs: &mut [A::Term],
    queue: &mut Queue<'_, Pair>,
    path: &mut [Span],
) -> Result<Sizes, TooLarge>
    requires start { entries queue.old ≡ (0, 0) ∷ [] }
    requires waits { queue.old.taken ≡ 0 }
    requires fits { 1 ≤ room queue.old }
    requires few { room queue.old ≤ 64 }
    requires states { room queue.old ≤ length states.old }
    requires path { 32 ≤ length path.old }
    ensures fills { Fills (joined A.model (table_of first.now.draft) (table_of second.now.draft)) (room queue.old) states.old states.new rules.old rules.new outputs.old outputs.new result }
    ensures composes { Joins A.model (table_of first.now.draft) (table_of second.now.draft) }
{
    let mut lines = SliceVec::new(rules);
    let mut terms = SliceVec::new(&mut *outputs);
    explore(first, second, queue, path, &mut lines, &mut terms)?;
    let from = terms.count;
    add_states(first, second, queue.entries(), states, &mut terms)?;
    let sizes = Sizes {
        states: queue.made(),
        rules: lines.finish(),
        outputs: terms.finish(),
    };
    outputs[0..sizes.outputs].rotate_left(from);
    Ok(sizes)
}

// Joins two filters: writes the filter that does what the first does and then the second to the front of three
// lists, and answers its sizes. Refuses where it is over a limit or over a list; the lists then hold anything. The pair
// list is scratch.
pub fn join<'x, A: Alphabet>(
    first: &'x Filter<'x, A>,
    second: &'x Filter<'x, A>,
    states: &mut [State],
    rules: &mut [Rule<A::Guard>],
    outputs: &mut [A::Term],
    pairs: &mut [Pair],
) -> Result<Sizes, TooLarge>
    ensures joins { Answers (joined A.model (table_of first.now.draft) (table_of second.now.draft)) (length pairs.old) states.old states.new rules.old rules.new outputs.old outputs.new result }
    ensures composes { Joins A.model (table_of first.now.draft) (table_of second.now.draft) }
{
    let most = states.len().min(pairs.len()).min(MOST_STATES);
    if most == 0 {
        return Err(TooLarge);
    }
    let most_rules = rules.len().min(MOST_RULES);
    let most_outputs = outputs.len().min(MOST_OUTPUTS);
    let mut queue = Queue::new(&mut pairs[0..most]);
    queue.push((0, 0))?;
    let mut path = [Span { from: 0, to: 0 }; 32];
    fill(
        first,
        second,
        states,
        &mut rules[0..most_rules],
        &mut outputs[0..most_outputs],
        &mut queue,
        &mut path,
    )
}
