// Transducing a text by a holding.
ghost use Rattle.holdings.specs.Memory.{memory_of};
ghost use Rattle.shelf_law.specs.Transducing.{TransducesAt};

use alphabet::Alphabet;
use answers::Fault;
use filter::{Outcome, transduce_sound};
use holdings::{Readable, Shelf};

// Transduces a text by the holding of a number, and answers the state reached and how many symbols stand at the front of
// the output, or where the text is rejected.
pub fn transduce<A: Alphabet>(
    shelf: &Shelf<'_, A>,
    number: usize,
    text: &[u32],
    output: &mut [u32],
) -> Result<Outcome, Fault>
    ensures { TransducesAt A.model (memory_of shelf.now) number text.now output.old result output.new }
{
    let readable = Readable::new(shelf)?;
    let place = shelf.place(number)?;
    let filter = readable.filter(place);
    let outcome = transduce_sound(&filter, text, output)?;
    Ok(outcome)
}
