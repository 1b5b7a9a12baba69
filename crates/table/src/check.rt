// The check of a table: its first fault, for any three lists.
ghost use Rattle.std.specs.Prelude.{◌≡◌, ◌+◌, ◌*◌, ◌<◌, ◌≤◌, [], length, drop, sum_by, Ok};
ghost use Rattle.alphabet.specs.Model.{SoundGuard};
ghost use Rattle.table.specs.Results.{map_err};
ghost use Rattle.table.specs.declared.fault.TableFault.TheVariants.{UnsoundOutput};
ghost use Rattle.table.specs.Table.{table_of, final_total_of, rule_total_of};
ghost use Rattle.table.specs.Check.{each, limits_of, check_state_lem, check_rule_lem, check_final_lem, check_output_lem, check_rule_outputs_lem, check_overlaps_lem, clash, checked, SoundGuards};
ghost use Rattle.table.specs.Sound.{Sound};

use crate::entries::{Draft, Owner, Rule, State};
use crate::fault::TableFault;
use alphabet::{Alphabet, Cause, least_shared};

// The most states, rules and outputs of a table, and the most outputs of one rule or state.
pub const MOST_STATES: usize = 64;

pub const MOST_RULES: usize = 1024;

pub const MOST_OUTPUTS: usize = 4096;

pub const MOST_AT_ONCE: u16 = 32;

fn check_limits(states: usize, rules: usize, outputs: usize) -> Result<(), TableFault>
    ensures { result ≡ limits_of states rules outputs }
{
    if 1 <= states && states <= MOST_STATES && rules <= MOST_RULES && outputs <= MOST_OUTPUTS {
        Ok(())
    } else {
        Err(TableFault::Limits)
    }
}

fn check_state(number: usize, state: State) -> Result<(), TableFault>
    ensures { result ≡ check_state_lem number state }
{
    let accepts = state.mark == 1;
    let rejects = state.mark == 0 && state.finals == 0;
    if (accepts || rejects) && state.finals <= MOST_AT_ONCE {
        Ok(())
    } else {
        Err(TableFault::BadState(number))
    }
}

fn check_states(states: &[State]) -> Result<(), TableFault>
    ensures { result ≡ each check_state_lem 0 states.now }
{
    for (number, state) in states.iter().enumerate() {
        check_state(number, *state)?;
    }
    Ok(())
}

fn check_rule<A: Alphabet>(
    states: usize,
    number: usize,
    rule: Rule<A::Guard>,
) -> Result<(), TableFault>
    ensures { result ≡ check_rule_lem A.model states number rule }
{
    if rule.state as usize >= states || rule.next as usize >= states {
        return Err(TableFault::MissingState(number));
    }
    A::check_guard(rule.guard).map_err(|cause| TableFault::UnsoundGuard(number, cause))?;
    if rule.outputs > MOST_AT_ONCE {
        return Err(TableFault::LongOutput(number));
    }
    Ok(())
}

fn check_rules<A: Alphabet>(states: usize, rules: &[Rule<A::Guard>]) -> Result<(), TableFault>
    ensures { result ≡ each (check_rule_lem A.model states) 0 rules.now }
{
    for (number, rule) in rules.iter().enumerate() {
        check_rule::<A>(states, number, *rule)?;
    }
    Ok(())
}

// How many outputs these own together.
pub fn total<O: Owner>(owners: &[O]) -> usize
    requires { length owners.now ≤ 1024 }
    ensures total { result ≡ sum_by O.count owners.now }
    ensures bound { result ≤ 65535 * length owners.now }
{
    let mut total = 0;
    for owner in owners {
        total += owner.outputs() as usize;
    }
    total
}

// How many final outputs the states ask for.
pub fn final_total(states: &[State]) -> usize
    requires { length states.now ≤ 64 }
    ensures total { result ≡ final_total_of states.now }
    ensures bound { result ≤ 65535 * 64 }
{
    total(states)
}

// Whether a term is sound.
fn check_term<A: Alphabet>(number: usize, term: A::Term) -> Result<(), TableFault>
    ensures { result ≡ map_err (UnsoundOutput number) (A.model.check_term term) }
{
    A::check_term(term).map_err(|cause| TableFault::UnsoundOutput(number, cause))
}

fn check_final<A: Alphabet>(number: usize, term: A::Term) -> Result<(), TableFault>
    ensures { result ≡ check_final_lem A.model number term }
{
    check_term::<A>(number, term)?;
    match A::constant_value(term) {
        Some(_) => Ok(()),
        None => Err(TableFault::NotConstant(number)),
    }
}

fn check_finals<A: Alphabet>(terms: &[A::Term]) -> Result<(), TableFault>
    ensures { result ≡ each (check_final_lem A.model) 0 terms.now }
{
    for (number, term) in terms.iter().enumerate() {
        check_final::<A>(number, *term)?;
    }
    Ok(())
}

fn check_output<A: Alphabet>(
    guard: A::Guard,
    number: usize,
    term: A::Term,
) -> Result<(), TableFault>
    requires { SoundGuard A.model guard }
    ensures { result ≡ check_output_lem A.model guard number term }
{
    check_term::<A>(number, term)?;
    if A::suits(term, guard) {
        Ok(())
    } else {
        Err(TableFault::UnsoundOutput(number, Cause::NotSuiting))
    }
}

// The outputs of one rule, the first of which has the number `from`.
fn check_outputs<A: Alphabet>(
    guard: A::Guard,
    from: usize,
    terms: &[A::Term],
) -> Result<(), TableFault>
    requires sound { SoundGuard A.model guard }
    requires low { from ≤ 4294967296 }
    requires few { length terms.now ≤ 65536 }
    ensures { result ≡ each (check_output_lem A.model guard) from terms.now }
{
    for (k, term) in terms.iter().enumerate() {
        check_output::<A>(guard, from + k, *term)?;
    }
    Ok(())
}

// The outputs of all rules; they stand behind the final outputs.
fn check_rule_outputs<A: Alphabet>(
    rules: &[Rule<A::Guard>],
    outputs: &[A::Term],
    finals: usize,
) -> Result<(), TableFault>
    requires sound { SoundGuards A.model rules.now }
    requires count { length outputs.now ≡ finals + rule_total_of rules.now }
    requires few { length outputs.now ≤ 4096 }
    ensures { result ≡ check_rule_outputs_lem A.model finals rules.now (drop finals outputs.now) }
{
    let mut from = finals;
    for rule in rules {
        let to = from + rule.outputs as usize;
        check_outputs::<A>(rule.guard, from, &outputs[from..to])?;
        from = to;
    }
    Ok(())
}

fn do_clash<A: Alphabet>(earlier: Rule<A::Guard>, later: Rule<A::Guard>) -> bool
    requires earlier { SoundGuard A.model earlier.guard }
    requires later { SoundGuard A.model later.guard }
    ensures { result ≡ clash A.model later earlier }
{
    earlier.state == later.state && least_shared::<A>(earlier.guard, later.guard).is_some()
}

// Nested loops left by a label: both numbers are at hand where two rules clash, and the later one is named.
fn check_overlaps<A: Alphabet>(rules: &[Rule<A::Guard>]) -> Result<(), TableFault>
    requires { SoundGuards A.model rules.now }
    ensures { result ≡ check_overlaps_lem A.model 0 [] rules.now }
{
    let mut found = Ok(());
    'pairs: for later in 0..rules.len() {
        for earlier in 0..later {
            if do_clash::<A>(rules[earlier], rules[later]) {
                found = Err(TableFault::Overlap(later));
                break 'pairs;
            }
        }
    }
    found
}

impl<'a, A: Alphabet> Draft<'a, A> {
    // Whether the table is sound, else its first fault.
    pub fn check(&self) -> Result<(), TableFault>
        ensures first { result ≡ checked A.model (table_of self.now) }
        ensures sound { (result ≡ Ok tt → Sound A.model (table_of self.now)) × (Sound A.model (table_of self.now) → result ≡ Ok tt) }
    {
        check_limits(self.states.len(), self.rules.len(), self.outputs.len())?;
        check_states(self.states)?;
        check_rules::<A>(self.states.len(), self.rules)?;
        let finals = final_total(self.states);
        if self.outputs.len() != finals + total(self.rules) {
            return Err(TableFault::OutputCount);
        }
        check_finals::<A>(&self.outputs[0..finals])?;
        check_rule_outputs::<A>(self.rules, self.outputs, finals)?;
        check_overlaps::<A>(self.rules)
    }
}
