// Putting a table behind the holdings of a shelf.
ghost use Rattle.std.specs.Prelude.{◌≡◌, ◌+◌, ◌≤◌, true, length, Ok, Err, OnOk, if◌then◌else◌};
ghost use Rattle.table.specs.Table.{table_of};
ghost use Rattle.answers.specs.declared.fault.Fault.TheVariants.{Full};
ghost use Rattle.holdings.specs.Memory.{memory_of, fits as fitting};
ghost use Rattle.holdings.specs.Append.{over, room_for, appended, Adds};

use crate::memory::{Entry, Head, Shelf};
use crate::views::MOST_HOLDINGS;
use alphabet::Alphabet;
use answers::Fault;
use table::Draft;

// Writes a list over another from a place on. The lists are the caller's, who has no heap.
fn copy_into<T: Copy>(list: &mut [T], at: usize, more: &[T])
    requires { at + length more.now ≤ length list.old }
    ensures { list.new ≡ over list.old at more.now }
{
    let end = at + more.len();
    list[at..end].copy_from_slice(more);
}

impl<'a, A: Alphabet> Shelf<'a, A> {
    // Whether there is room for a table as one more holding.
    pub fn has_room_for(&self, draft: &Draft<'_, A>) -> bool
        requires fits { fitting (memory_of self.now) ≡ true }
        ensures { result ≡ room_for (memory_of self.now) (table_of draft.now) }
    {
        let head = self.head;
        head.holdings < MOST_HOLDINGS
            && head.holdings < self.ledger.len()
            && draft.states.len() <= self.states.len() - head.states
            && draft.rules.len() <= self.rules.len() - head.rules
            && draft.outputs.len() <= self.outputs.len() - head.outputs
    }

    // Puts a table behind the holdings, where there is room.
    pub fn append(&mut self, draft: &Draft<'_, A>) -> Result<(), Fault>
        requires fits { fitting (memory_of self.old) ≡ true }
        requires short { (length draft.now.states.now ≤ 65535) × (length draft.now.rules.now ≤ 65535) × (length draft.now.outputs.now ≤ 65535) }
        ensures answer { result ≡ (if room_for (memory_of self.old) (table_of draft.now) then Ok tt else Err Full) }
        ensures memory { memory_of self.new ≡ (if room_for (memory_of self.old) (table_of draft.now) then appended (memory_of self.old) (table_of draft.now) else memory_of self.old) }
        ensures adds { OnOk result (Adds (memory_of self.old) (table_of draft.now) (memory_of self.new)) }
    {
        if !self.has_room_for(draft) {
            return Err(Fault::Full);
        }
        let head = self.head;
        copy_into(&mut *self.states, head.states, draft.states);
        copy_into(&mut *self.rules, head.rules, draft.rules);
        copy_into(&mut *self.outputs, head.outputs, draft.outputs);
        let holdings = head.holdings;
        self.ledger[holdings] = Entry {
            states: draft.states.len() as u16,
            rules: draft.rules.len() as u16,
            outputs: draft.outputs.len() as u16,
        };
        self.head = Head {
            holdings: holdings + 1,
            states: head.states + draft.states.len(),
            rules: head.rules + draft.rules.len(),
            outputs: head.outputs + draft.outputs.len(),
        };
        Ok(())
    }
}
