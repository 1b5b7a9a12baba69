// The final output of a pair of states: the first filter's, run through the second to its end.
#![tactic(auto)]

ghost use Rattle.std.specs.Prelude.{◌≡◌, ◌*◌, ◌<◌, ◌≤◌, length};
ghost use Rattle.std.specs.List.{AllByRecursion};
ghost use Rattle.alphabet.specs.Model.{SoundTerm};
ghost use Rattle.table.specs.Table.{table_of};
ghost use Rattle.machine.specs.Machine.{run};
ghost use Rattle.filter.specs.Machines.{values_of, machine_of};
ghost use Rattle.join_laws.specs.Joined.{final_at};
ghost use Rattle.join_finals.specs.Finals.{Ran, Ends};

use alphabet::Alphabet;
use filter::walk::{finish, walk};
use join_laws::Pair;
use table::{Filter, final_total};

// The most symbols that the final outputs of a pair can have: 32 of the first filter's, each written as 32, and 32 more.
pub const MOST_SYMBOLS: usize = 1056;

// Steps a filter from a state over the symbols that constant terms give, and answers the state reached and the number
// of symbols written; or none where it has no move.
fn run_constants<A: Alphabet>(
    second: &Filter<'_, A>,
    terms: &[A::Term],
    start: u16,
    out: &mut [u32],
) -> Option<(u16, usize)>
    requires terms { AllByRecursion (SoundTerm A.model) terms.now }
    requires few { length terms.now ≤ 32 }
    requires room { 1056 ≤ length out.old }
    ensures ran { Ran (run (machine_of A.model (table_of second.now.draft)) (values_of A.model terms.now 0) start) out.new 1024 result }
{
    let mut state = start;
    let mut count = 0;
    for term in terms {
        // a constant has a value at every symbol, 0 among them
        let Some(symbol) = A::value(*term, 0) else {
            continue;
        };
        let (next, written) = walk(second, state, &[symbol], &mut out[count..]).ok()?;
        state = next;
        count += written;
    }
    Some((state, count))
}

// Writes the final output of a pair to the front of a buffer and answers its length, or none where the pair rejects.
pub fn final_of<A: Alphabet>(
    first: &Filter<'_, A>,
    second: &Filter<'_, A>,
    pair: Pair,
    out: &mut [u32],
) -> Option<usize>
    requires room { 1056 ≤ length out.old }
    ensures { Ends (final_at A.model (table_of first.now.draft) (table_of second.now.draft) pair) out.new result }
{
    let state = pair.0 as usize;
    if state >= first.draft.states.len() {
        return None;
    }
    let entry = first.draft.states[state];
    if entry.mark != 1 {
        return None;
    }
    let from = final_total(&first.draft.states[0..state]);
    let to = from + entry.finals as usize;
    let (reached, count) = run_constants(
        second,
        &first.draft.outputs[from..to],
        pair.1,
        &mut *out,
    )?;
    finish(second, reached, out, count)
}
