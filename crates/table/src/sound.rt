// Sound filters: drafts of which it is known that their tables have no fault.
ghost use Rattle.std.specs.Prelude.{◌≡◌, Ok, IfOk};
ghost use Rattle.table.specs.Table.{table_of};
ghost use Rattle.table.specs.Check.{checked};
ghost use Rattle.table.specs.Sound.{Sound};
ghost use Rattle.table.specs.Results.{dropped};

use crate::entries::Draft;
use crate::fault::TableFault;
use alphabet::Alphabet;

// A filter: three lists that make a sound table.
#[derive(Drop)]
pub struct Filter<'a, A: Alphabet> {
    pub draft: Draft<'a, A>,
    pub ghost sound: { checked A.model (table_of draft) ≡ Ok tt },
}

impl<'a, A: Alphabet> Filter<'a, A> {
    // The filter of a draft, or the first fault of its table.
    pub fn new(draft: Draft<'a, A>) -> Result<Filter<'a, A>, TableFault>
        ensures answer { dropped result ≡ checked A.model (table_of draft.entry) }
        ensures draft { IfOk result (λ f. f.draft ≡ draft.entry) }
    {
        draft.check()?;
        Ok(Filter { draft })
    }

    // The filter of a draft that is known to be sound, which costs nothing.
    pub fn of_sound(draft: Draft<'a, A>) -> Filter<'a, A>
        requires { Sound A.model (table_of draft) }
        ensures { result.draft ≡ draft.entry }
    {
        Filter { draft }
    }
}
