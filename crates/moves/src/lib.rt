// Moves: where a filter stands after one symbol more.
#![tactic(auto)]

ghost use Rattle.std.specs.Prelude.{◌≡◌, ◌^◌, ◌<◌, unwrap_or};
ghost use Rattle.table.specs.Table.{table_of, final_total_of};
ghost use Rattle.moves.specs.Moves.{dead_side, Moved};

use alphabet::Alphabet;
use filter::walk::{Found, find};
use steps::Side;
use table::Filter;

// Where a filter stands after one symbol more, or none where it has no move.
fn move_on<A: Alphabet>(
    filter: &Filter<'_, A>,
    first: usize,
    side: Side,
    symbol: u32,
) -> Option<Side>
    requires first { first ≡ final_total_of filter.now.draft.states.now }
    requires small { side.total < 2 ^ 31 }
    ensures { Moved A.model (table_of filter.now.draft) side symbol (unwrap_or result dead_side) }
{
    let Found { next, from, to, .. } = find(filter, first, side.state?, symbol)?;
    Some(Side {
        state: Some(next),
        from: from as u16,
        to: to as u16,
        total: side.total + (to - from) as u32,
    })
}

// Where a filter stands after one symbol more. `first` is where the outputs of rules begin. A filter that has no state
// left has a side of zeros, as what it wrote counts no more.
pub fn onward<A: Alphabet>(filter: &Filter<'_, A>, first: usize, side: Side, symbol: u32) -> Side
    requires first { first ≡ final_total_of filter.now.draft.states.now }
    requires small { side.total < 2 ^ 31 }
    ensures { Moved A.model (table_of filter.now.draft) side symbol result }
{
    move_on(filter, first, side, symbol).unwrap_or_default()
}
