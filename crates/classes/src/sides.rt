// One side of a comparison: a filter where it stands.
ghost use Rattle.std.specs.Prelude.{◌≡◌};
ghost use Rattle.alphabet.specs.Questions.{LeastFrom};
ghost use Rattle.table.specs.Table.{table_of};
ghost use Rattle.classes.specs.Runs.{rule_at_lem, holds_any, changed, thrice};

use crate::lower;
use alphabet::Alphabet;
use filter::walk::find;
use table::{Filter, final_total};

// A filter at one of its states, or dead, without a state and so without rules.
#[derive(Drop)]
pub struct Standing<'f, 'a, A: Alphabet> {
    pub filter: &'f Filter<'a, A>,
    pub state: Option<u16>,
}

impl<'f, 'a, A: Alphabet> Standing<'f, 'a, A> {
    // The number of the rule by which it moves on a symbol, or none.
    fn rule_at(&self, symbol: u32) -> Option<usize>
        ensures { result ≡ rule_at_lem A.model (table_of self.now.filter.now.draft) self.now.state symbol }
    {
        let filter = self.filter;
        let first = final_total(filter.draft.states);
        find(filter, first, self.state?, symbol).map(|found| found.rule)
    }

    // The least symbol at or after a number that a rule of it holds, or none.
    pub(crate) fn first_held(&self, from: u32) -> Option<u32>
        ensures { LeastFrom (holds_any (rule_at_lem A.model (table_of self.now.filter.now.draft) self.now.state)) from result }
    {
        let filter = self.filter;
        let state = self.state?;
        let mut first = None;
        for rule in filter.draft.rules {
            if rule.state == state {
                first = lower(first, A::first_inside(rule.guard, from));
            }
        }
        first
    }

    // The least number behind a symbol at which it has another rule than at the symbol, or none.
    pub(crate) fn rule_end(&self, symbol: u32) -> Option<u32>
        ensures { LeastFrom (changed (rule_at_lem A.model (table_of self.now.filter.now.draft) self.now.state) symbol) symbol result }
    {
        let filter = self.filter;
        let rules = filter.draft.rules;
        match self.rule_at(symbol) {
            Some(rule) => Some(A::first_outside(rules[rule].guard, symbol)),
            None => self.first_held(symbol),
        }
    }

    // Whether it has the same rule at a symbol and at the two before it.
    pub(crate) fn rule_repeats(&self, symbol: u32) -> bool
        ensures { result ≡ thrice (rule_at_lem A.model (table_of self.now.filter.now.draft) self.now.state) symbol }
    {
        let rule = self.rule_at(symbol);
        symbol >= 2 && self.rule_at(symbol - 1) == rule && self.rule_at(symbol - 2) == rule
    }
}
