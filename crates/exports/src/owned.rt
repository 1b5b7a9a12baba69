// A byte filter in memory of its own, read from flat lists.
ghost use Rattle.std.specs.Prelude.{◌≡◌, IfOk};
ghost use Rattle.table.specs.Table.{table_of};
ghost use Rattle.exports.specs.Flats.{flat_table};
ghost use Rattle.exports.specs.Tables.{table_in};

use crate::flat::{FlatRule, FlatState, FlatTerm};
use ranges::{Bytes, Range, RangeTerm};
use std::alloc::{AllocError, Global};
use table::{Draft, Rule, State};

#[derive(Drop)]
pub struct Owned {
    pub states: Vec<State>,
    pub rules: Vec<Rule<Range>>,
    pub outputs: Vec<RangeTerm>,
}

// The table that flat lists stand for.
pub fn read(
    heap: Global,
    states: &[FlatState],
    rules: &[FlatRule],
    outputs: &[FlatTerm],
) -> Result<Owned, AllocError>
    ensures { IfOk result (λ t. table_in t ≡ flat_table states.now rules.now outputs.now) }
{
    Ok(Owned {
        states: states.iter().map(|flat| State::from(*flat)).collect(heap)?,
        rules: rules.iter().map(|flat| Rule::from(*flat)).collect(heap)?,
        outputs: outputs
            .iter()
            .map(|flat| RangeTerm::from(*flat))
            .collect(heap)?,
    })
}

impl Owned {
    pub fn draft<'b>(&'b self) -> Draft<'b, Bytes>
        ensures { table_of result ≡ table_in self.now }
    {
        Draft {
            states: self.states.as_slice(),
            rules: self.rules.as_slice(),
            outputs: self.outputs.as_slice(),
        }
    }
}
