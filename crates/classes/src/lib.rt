// Classes of symbols: which symbols are worth trying at the states of two filters, in a search for the earliest text
// that distinguishes them. A run is a row of neighbouring symbols that the same pair of rules holds. What happens at its
// first two symbols decides what happens at all of it, so that the others need not be tried.
#![tactic(auto)]

pub mod sides;

ghost use Rattle.std.specs.Prelude.{◌≡◌, ◌&&◌};
ghost use Rattle.alphabet.specs.Questions.{LeastFrom};
ghost use Rattle.table.specs.Table.{table_of};
ghost use Rattle.filter.specs.Machines.{machine_of};
ghost use Rattle.classes.specs.Runs.{rule_at_lem, lower_of, thrice, held, over, worth};
ghost use Rattle.classes.specs.Guided.{Guided, Below};

use alphabet::Alphabet;
pub use sides::Standing;

// The lower of two numbers, where there are any; the library's `min` takes none for the lowest.
pub(crate) fn lower(one: Option<u32>, other: Option<u32>) -> Option<u32>
    ensures { result ≡ lower_of one other }
{
    match (one, other) {
        (Some(a), Some(b)) => Some(a.min(b)),
        _ => one.or(other),
    }
}

// The least symbol at or after a number that a rule of either side holds, or none.
fn first_of_either<A: Alphabet>(
    left: &Standing<'_, '_, A>,
    right: &Standing<'_, '_, A>,
    from: u32,
) -> Option<u32>
    ensures { LeastFrom (held (rule_at_lem A.model (table_of left.now.filter.now.draft) left.now.state) (rule_at_lem A.model (table_of right.now.filter.now.draft) right.now.state)) from result }
{
    lower(left.first_held(from), right.first_held(from))
}

// The end of a symbol's run: the least number behind it at which a side has another rule, or none. It and
// `first_of_either` are one line each, which a closure would make no shorter.
fn run_end<A: Alphabet>(
    left: &Standing<'_, '_, A>,
    right: &Standing<'_, '_, A>,
    symbol: u32,
) -> Option<u32>
    ensures { LeastFrom (over (rule_at_lem A.model (table_of left.now.filter.now.draft) left.now.state) (rule_at_lem A.model (table_of right.now.filter.now.draft) right.now.state) symbol) symbol result }
{
    lower(left.rule_end(symbol), right.rule_end(symbol))
}

// Whether a symbol's run holds the two symbols before it too.
fn run_repeats<A: Alphabet>(
    left: &Standing<'_, '_, A>,
    right: &Standing<'_, '_, A>,
    symbol: u32,
) -> bool
    ensures { result ≡ (thrice (rule_at_lem A.model (table_of left.now.filter.now.draft) left.now.state) symbol && thrice (rule_at_lem A.model (table_of right.now.filter.now.draft) right.now.state) symbol) }
{
    left.rule_repeats(symbol) && right.rule_repeats(symbol)
}

// The next symbol worth trying where two filters stand, at or after a number: the first or the second symbol of a run
// that some rule holds.
pub fn next_symbol<A: Alphabet>(
    left: &Standing<'_, '_, A>,
    right: &Standing<'_, '_, A>,
    from: u32,
) -> Option<u32>
    ensures least { LeastFrom (worth (rule_at_lem A.model (table_of left.now.filter.now.draft) left.now.state) (rule_at_lem A.model (table_of right.now.filter.now.draft) right.now.state)) from result }
    ensures guided { Guided (machine_of A.model (table_of left.now.filter.now.draft)) (machine_of A.model (table_of right.now.filter.now.draft)) left.now.state right.now.state from result }
    ensures bound { Below 2097152 result }
{
    let first = first_of_either(left, right, from)?;
    if !run_repeats(left, right, first) {
        return Some(first);
    }
    let end = run_end(left, right, first)?;
    first_of_either(left, right, end)
}
