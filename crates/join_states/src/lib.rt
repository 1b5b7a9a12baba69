// The states of the joined filter, with their final outputs.
#![tactic(auto)]

ghost use Rattle.std.specs.Prelude.{◌≡◌, ◌<◌, ◌≤◌, map, length};
ghost use Rattle.std.specs.List.{AllByRecursion};
ghost use Rattle.table.specs.Table.{table_of};
ghost use Rattle.join_laws.specs.Joined.{final_at};
ghost use Rattle.join_ways.specs.Written.{Wrote, Same};
ghost use Rattle.join_states.specs.Ended.{Ended, EndedAll};

use alphabet::Alphabet;
use join_finals::{MOST_SYMBOLS, final_of};
use join_laws::Pair;
use join_ways::{MOST_AT_ONCE, SliceVec, TooLarge};
use table::{Filter, State};

// Writes symbols as constant terms; refuses where there is no room.
fn write_constants<A: Alphabet>(
    symbols: &[u32],
    outputs: &mut SliceVec<'_, A::Term>,
) -> Result<(), TooLarge>
    requires { AllByRecursion (λ c. c < A.model.size) symbols.now }
    ensures wrote { Wrote (map A.model.constant symbols.now) outputs.old outputs.new result }
    ensures same { Same outputs.old outputs.new }
{
    for symbol in symbols {
        outputs.push(A::constant(*symbol))?;
    }
    Ok(())
}

// Writes the final output of a pair, and answers its state.
fn add_state<A: Alphabet>(
    first: &Filter<'_, A>,
    second: &Filter<'_, A>,
    pair: Pair,
    outputs: &mut SliceVec<'_, A::Term>,
) -> Result<State, TooLarge>
    ensures ended { Ended A.model (final_at A.model (table_of first.now.draft) (table_of second.now.draft) pair) outputs.old outputs.new result }
    ensures same { Same outputs.old outputs.new }
{
    let mut symbols = [0; MOST_SYMBOLS];
    let Some(count) = final_of(first, second, pair, &mut symbols) else {
        return Ok(State { mark: 0, finals: 0 });
    };
    if count > MOST_AT_ONCE {
        return Err(TooLarge);
    }
    write_constants::<A>(&symbols[0..count], outputs)?;
    Ok(State {
        mark: 1,
        finals: count as u16,
    })
}

// Writes the states of all pairs, and their final outputs.
pub fn add_states<A: Alphabet>(
    first: &Filter<'_, A>,
    second: &Filter<'_, A>,
    pairs: &[Pair],
    states: &mut [State],
    outputs: &mut SliceVec<'_, A::Term>,
) -> Result<(), TooLarge>
    requires { length pairs.now ≤ length states.old }
    ensures ended { EndedAll A.model (map (final_at A.model (table_of first.now.draft) (table_of second.now.draft)) pairs.now) states.old states.new outputs.old outputs.new result }
    ensures same { Same outputs.old outputs.new }
{
    for (number, pair) in pairs.iter().enumerate() {
        let state = add_state(first, second, *pair, outputs)?;
        states[number] = state;
    }
    Ok(())
}
