// The walk of a sound filter along a text.
ghost use Rattle.std.specs.Prelude.{◌≡◌, ℕ, ◌+◌, ◌-◌, ◌*◌, ◌^◌, ◌<◌, ◌≤◌, length, slice_set};
ghost use Rattle.std.specs.List.{AllByRecursion};
ghost use Rattle.machine.specs.Walk.{written};
ghost use Rattle.alphabet.specs.Model.{SoundTerm};
ghost use Rattle.table.specs.Table.{table_of, final_total_of};
ghost use Rattle.filter.specs.Machines.{values_of, machine_of, found, Finds};
ghost use Rattle.filter.specs.Outcomes.{put, walked, CountWithin, behind, finished};

use alphabet::Alphabet;
use table::{Filter, final_total};

// A rule that applies: its number, where it leads, and where its outputs stand in the output list.
#[derive(Clone, Copy)]
pub struct Found {
    pub rule: usize,
    pub next: u16,
    pub from: usize,
    pub to: usize,
}

// The rule of a state that holds a symbol, or none. `first` is where the outputs of rules begin.
pub fn find<A: Alphabet>(
    filter: &Filter<'_, A>,
    first: usize,
    state: u16,
    symbol: u32,
) -> Option<Found>
    requires first { first ≡ final_total_of filter.now.draft.states.now }
    ensures answer { result ≡ found A.model state symbol 0 first filter.now.draft.rules.now }
    ensures leads { Finds A.model (table_of filter.now.draft) state symbol result }
{
    let mut from = first;
    for (number, rule) in filter.draft.rules.iter().enumerate() {
        let to = from + rule.outputs as usize;
        if rule.state == state && A::holds(rule.guard, symbol) {
            return Some(Found {
                rule: number,
                next: rule.next,
                from,
                to,
            });
        }
        from = to;
    }
    None
}

// Writes a symbol into the output, if it reaches that far.
fn write_at(out: &mut [u32], place: usize, symbol: u32)
    ensures { out.new ≡ slice_set out.old place symbol }
{
    if place < out.len() {
        out[place] = symbol;
    }
}

// Writes the values of terms at a symbol into the output from a place on, as far as it reaches, and answers the place
// behind them. The place counts on where the output ends, so it is no length of what the output holds.
pub fn emit<A: Alphabet>(terms: &[A::Term], symbol: u32, out: &mut [u32], at: usize) -> usize
    requires sound { AllByRecursion (SoundTerm A.model) terms.now }
    requires fits { at + length terms.now < 2 ^ 64 }
    ensures count { result ≡ at + length (values_of A.model terms.now symbol) }
    ensures output { out.new ≡ put at (values_of A.model terms.now symbol) out.old }
{
    let mut place = at;
    for term in terms {
        if let Some(value) = A::value(*term, symbol) {
            write_at(out, place, value);
            place += 1;
        }
    }
    place
}

// Writes the final output of a state from a place on, as far as the output reaches, and answers the place behind it; or
// none where the state rejects.
pub fn finish<A: Alphabet>(
    filter: &Filter<'_, A>,
    state: u16,
    out: &mut [u32],
    at: usize,
) -> Option<usize>
    requires fits { at ≤ 2 ^ 63 }
    ensures answer { result ≡ behind at ((machine_of A.model (table_of filter.now.draft)).final state) }
    ensures output { out.new ≡ finished at ((machine_of A.model (table_of filter.now.draft)).final state) out.old }
{
    let state = state as usize;
    if state >= filter.draft.states.len() {
        return None;
    }
    let entry = filter.draft.states[state];
    if entry.mark != 1 {
        return None;
    }
    let from = final_total(&filter.draft.states[0..state]);
    let to = from + entry.finals as usize;
    Some(emit::<A>(&filter.draft.outputs[from..to], 0, out, at))
}

// Walks from a state along a text, writes as far as the output reaches, and answers the state reached and the number of
// symbols written; or the position of the symbol that no rule holds.
pub fn walk<A: Alphabet>(
    filter: &Filter<'_, A>,
    start: u16,
    text: &[u32],
    out: &mut [u32],
) -> Result<(u16, usize), usize>
    requires short { length text.now ≤ 1048576 }
    ensures answer { result ≡ walked (machine_of A.model (table_of filter.now.draft)) text.now start }
    ensures bound { CountWithin (32 * length text.now) result }
    ensures output { out.new ≡ put 0 (written (machine_of A.model (table_of filter.now.draft)) text.now start) out.old }
{
    let first = final_total(filter.draft.states);
    let mut state = start;
    let mut count = 0;
    for (position, symbol) in text.iter().enumerate() {
        let Some(found) = find(filter, first, state, *symbol) else {
            return Err(position);
        };
        let Found { from, to, next, .. } = found;
        count = emit::<A>(&filter.draft.outputs[from..to], *symbol, out, count);
        state = next;
    }
    Ok((state, count))
}
