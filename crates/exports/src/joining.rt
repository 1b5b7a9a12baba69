// Two byte filters joined into memory of its own.
ghost use Rattle.std.specs.Prelude.{◌≡◌, ◌≤◌, true, length, if◌then◌else◌, vec_len};
ghost use Rattle.table.specs.Table.{table_of};
ghost use Rattle.range_laws.specs.Ranges.{ranges};
ghost use Rattle.exports.specs.declared.joining.JoinFault.TheVariants.{TooLarge as OverLimit, NoMemory};
ghost use Rattle.exports.specs.Joins.{Composed, has_room_lem, join_answer_lem, begun, Listed};
ghost use Rattle.exports.specs.Answers.{answer};
ghost use Rattle.exports.specs.Flats.{flat_state, flat_rule, flat_term};

use crate::answer::{Answer, Kind, NO_MEMORY, answer_of, refused};
use crate::flat::{FlatRule, FlatState, FlatTerm, spread};
use crate::owned::Owned;
use join::join;
use join_ways::TooLarge;
use ranges::{Bytes, Range, RangeTerm};
use std::alloc::{AllocError, Global};
use table::check::{MOST_OUTPUTS, MOST_RULES, MOST_STATES};
use table::{Draft, Filter, Rule, State, TableFault};

// Why two filters are not joined. Comparing has a type of its own, since it has no limit to be over.
#[derive(Drop)]
pub enum JoinFault {
    // The first filter's table is unsound.
    First(TableFault),
    // The second filter's table is unsound.
    Second(TableFault),
    // The joined filter is over a limit.
    TooLarge,
    // There is not enough memory.
    NoMemory,
}

impl From<AllocError> for JoinFault {
    ghost from_gives = { λ _ r. r ≡ NoMemory };

    fn from(_fault: AllocError) -> JoinFault {
        JoinFault::NoMemory
    }
}

impl From<TooLarge> for JoinFault {
    ghost from_gives = { λ _ r. r ≡ OverLimit };

    fn from(_fault: TooLarge) -> JoinFault {
        JoinFault::TooLarge
    }
}

// What the lists hold before a join is written to them. Entries have no default, since none is the usual one.
const STATE: State = State { mark: 0, finals: 0 };

const RULE: Rule<Range> = Rule {
    state: 0,
    next: 0,
    outputs: 0,
    guard: Range { low: 0, high: 0 },
};

const TERM: RangeTerm = RangeTerm::Constant(0);

// The joined filter of two.
fn join_sound<'x>(
    heap: Global,
    first: &'x Filter<'x, Bytes>,
    second: &'x Filter<'x, Bytes>,
) -> Result<Owned, JoinFault>
    ensures { Composed (table_of first.now.draft) (table_of second.now.draft) result }
{
    let mut states = vec![in heap; STATE; MOST_STATES]?;
    let mut rules = vec![in heap; RULE; MOST_RULES]?;
    let mut outputs = vec![in heap; TERM; MOST_OUTPUTS]?;
    let mut pairs = vec![in heap; (0u16, 0u16); MOST_STATES]?;
    let sizes = join(
        first,
        second,
        states.as_mut_slice(),
        rules.as_mut_slice(),
        outputs.as_mut_slice(),
        pairs.as_mut_slice(),
    )?;
    states.truncate(sizes.states);
    rules.truncate(sizes.rules);
    outputs.truncate(sizes.outputs);
    Ok(Owned {
        states,
        rules,
        outputs,
    })
}

// The same for any two filters: their tables are checked first.
pub fn join_drafts<'x>(
    heap: Global,
    first: &'x Draft<'x, Bytes>,
    second: &'x Draft<'x, Bytes>,
) -> Result<Owned, JoinFault>
    ensures { Composed (table_of first.now) (table_of second.now) result }
{
    let first = Filter::new(*first).map_err(JoinFault::First)?;
    let second = Filter::new(*second).map_err(JoinFault::Second)?;
    join_sound(heap, &first, &second)
}

// Writes a table to the front of three lists, which have room for it.
fn write_table(
    table: &Owned,
    states: &mut [FlatState],
    rules: &mut [FlatRule],
    outputs: &mut [FlatTerm],
)
    requires states { vec_len table.now.states ≤ length states.old }
    requires rules { vec_len table.now.rules ≤ length rules.old }
    requires outputs { vec_len table.now.outputs ≤ length outputs.old }
    ensures states { states.new ≡ begun flat_state table.now.states.items states.old }
    ensures rules { rules.new ≡ begun flat_rule table.now.rules.items rules.old }
    ensures outputs { outputs.new ≡ begun flat_term table.now.outputs.items outputs.old }
{
    spread(table.states.as_slice(), states);
    spread(table.rules.as_slice(), rules);
    spread(table.outputs.as_slice(), outputs);
}

// The sizes of the joined filter, written to three lists if they have room.
fn join_sizes(
    table: &Owned,
    states: &mut [FlatState],
    rules: &mut [FlatRule],
    outputs: &mut [FlatTerm],
) -> Answer
    ensures answer { result ≡ (if has_room_lem table.now (length states.old) (length rules.old) (length outputs.old) then answer 0 (vec_len table.now.states) (vec_len table.now.rules) (vec_len table.now.outputs) else answer 5 (vec_len table.now.states) (vec_len table.now.rules) (vec_len table.now.outputs)) }
    ensures states { has_room_lem table.now (length states.old) (length rules.old) (length outputs.old) ≡ true → states.new ≡ begun flat_state table.now.states.items states.old }
    ensures rules { has_room_lem table.now (length states.old) (length rules.old) (length outputs.old) ≡ true → rules.new ≡ begun flat_rule table.now.rules.items rules.old }
    ensures outputs { has_room_lem table.now (length states.old) (length rules.old) (length outputs.old) ≡ true → outputs.new ≡ begun flat_term table.now.outputs.items outputs.old }
{
    let (p, q, n) = (table.states.len(), table.rules.len(), table.outputs.len());
    if p <= states.len() && q <= rules.len() && n <= outputs.len() {
        write_table(table, states, rules, outputs);
        answer_of(Kind::Done as u32, p, q, n)
    } else {
        answer_of(Kind::TooShort as u32, p, q, n)
    }
}

// The answer to a join, with the joined filter written to three lists.
pub fn join_answer(
    outcome: Result<Owned, JoinFault>,
    states: &mut [FlatState],
    rules: &mut [FlatRule],
    outputs: &mut [FlatTerm],
) -> Answer
    ensures answer { result ≡ join_answer_lem outcome (length states.old) (length rules.old) (length outputs.old) }
    ensures lists { Listed outcome states.old states.new rules.old rules.new outputs.old outputs.new }
{
    match outcome {
        Ok(table) => join_sizes(&table, states, rules, outputs),
        Err(JoinFault::First(fault)) => refused(Kind::Refused as u32, fault.code()),
        Err(JoinFault::Second(fault)) => refused(Kind::SecondRefused as u32, fault.code()),
        Err(JoinFault::TooLarge) => answer_of(Kind::Otherwise as u32, 0, 0, 0),
        Err(JoinFault::NoMemory) => NO_MEMORY,
    }
}
