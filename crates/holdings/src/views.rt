// Reading a shelf: whether head and ledger fit, and each holding as a view of the lists.
ghost use Rattle.std.specs.Prelude.{◌≡◌, ◌*◌, ◌<◌, ◌≤◌, true, length};
ghost use Rattle.table.specs.Table.{table_of};
ghost use Rattle.holdings.specs.Memory.{memory_of, in_use, states_of_lem, rules_of, outputs_of_lem, adds_up_lem, has_room_lem, fits as fitting, holding, place_of};
ghost use Rattle.holdings.specs.Check.{checked_shelf};

use crate::memory::{Entry, Head, Shelf};
use alphabet::Alphabet;
use answers::Fault;
use table::Draft;

// The most holdings of a shelf.
pub const MOST_HOLDINGS: usize = 16;

// How much of the lists some entries use.
fn used(entries: &[Entry]) -> Head
    requires { length entries.now ≤ 16 }
    ensures holdings { result.holdings ≡ length entries.now }
    ensures states { result.states ≡ states_of_lem entries.now }
    ensures rules { result.rules ≡ rules_of entries.now }
    ensures outputs { result.outputs ≡ outputs_of_lem entries.now }
    ensures bound { (result.states ≤ 65535 * 16) × (result.rules ≤ 65535 * 16) × (result.outputs ≤ 65535 * 16) }
{
    let mut states = 0;
    let mut rules = 0;
    let mut outputs = 0;
    for entry in entries {
        states += entry.states as usize;
        rules += entry.rules as usize;
        outputs += entry.outputs as usize;
    }
    Head {
        holdings: entries.len(),
        states,
        rules,
        outputs,
    }
}

// Whether a head and a ledger fit each other.
fn adds_up(head: Head, ledger: &[Entry]) -> bool
    ensures { result ≡ adds_up_lem head ledger.now }
{
    let holdings = head.holdings;
    if holdings > MOST_HOLDINGS || holdings > ledger.len() {
        return false;
    }
    let sum = used(&ledger[0..holdings]);
    sum.states == head.states && sum.rules == head.rules && sum.outputs == head.outputs
}

// Whether lists of these lengths hold what a head counts.
fn has_room(head: Head, states: usize, rules: usize, outputs: usize) -> bool
    ensures { result ≡ has_room_lem head states rules outputs }
{
    head.states <= states && head.rules <= rules && head.outputs <= outputs
}

impl<'a, A: Alphabet> Shelf<'a, A> {
    // Whether head, ledger and lists fit each other.
    pub fn fits(&self) -> bool
        ensures { result ≡ fitting (memory_of self.now) }
    {
        let head = self.head;
        adds_up(head, self.ledger)
            && has_room(
                head,
                self.states.len(),
                self.rules.len(),
                self.outputs.len(),
            )
    }

    // How many holdings stand in front of the one of a number; they are numbered from 1.
    pub fn place(&self, number: usize) -> Result<usize, Fault>
        ensures { result ≡ place_of (memory_of self.now) number }
    {
        if number == 0 || number > self.head.holdings {
            return Err(Fault::NoHolding(number));
        }
        Ok(number - 1)
    }

    // The holding behind i others, as a view of the lists.
    pub fn view<'b>(&'b self, i: usize) -> Draft<'b, A>
        requires fits { fitting (memory_of self.now) ≡ true }
        requires within { i < self.now.head.holdings }
        ensures { table_of result ≡ holding (memory_of self.now) i }
    {
        let before = used(&self.ledger[0..i]);
        let entry = self.ledger[i];
        let states = before.states;
        let states_end = states + entry.states as usize;
        let rules = before.rules;
        let rules_end = rules + entry.rules as usize;
        let outputs = before.outputs;
        let outputs_end = outputs + entry.outputs as usize;
        Draft {
            states: &self.states[states..states_end],
            rules: &self.rules[rules..rules_end],
            outputs: &self.outputs[outputs..outputs_end],
        }
    }

    // Whether the shelf can be read: it fits, and every holding is sound.
    pub fn check(&self) -> Result<(), Fault>
        ensures { result ≡ checked_shelf A.model (memory_of self.now) }
    {
        if !self.fits() {
            return Err(Fault::Misfit);
        }
        let holdings = self.head.holdings;
        // by number, since it is the number that a fault names; and an `if let`, since a closure that captures the counter is
        // not followed by the proof of the loop
        for i in 0..holdings {
            let view = self.view(i);
            if let Err(fault) = view.check() {
                return Err(Fault::Unsound(i + 1, fault));
            }
        }
        Ok(())
    }
}
