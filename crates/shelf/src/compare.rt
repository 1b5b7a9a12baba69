// Comparing two holdings.
ghost use Rattle.std.specs.Prelude.{List};
ghost use Rattle.holdings.specs.Memory.{memory_of};
ghost use Rattle.shelf_law.specs.Comparing.{Compares, ToldApart};
ghost use Rattle.shelf_law.specs.History.{Reached, Call};
ghost use Rattle.shelf.specs.Lent.{lent};

use crate::lent::Scratch;
use alphabet::Alphabet;
use answers::{Comparison, Fault};
use holdings::{Readable, Shelf};
use telling::distinguish;

// Compares the holdings of two numbers: they are equivalent, or the earliest of the shortest texts that distinguish them
// is written to the front of the witness.
pub fn compare<A: Alphabet>(
    shelf: &Shelf<'_, A>,
    first: usize,
    second: usize,
    scratch: Scratch<'_>,
    witness: &mut [u32],
) -> Result<Comparison, Fault>
    ensures compares { Compares A.model (lent scratch.entry) (memory_of shelf.now) first second witness.old result witness.new }
    ensures told { (h : List (Call _ _)) → Reached A.model h (memory_of shelf.now) → ToldApart A.model (memory_of shelf.now) }
{
    let readable = Readable::new(shelf)?;
    let one = shelf.place(first)?;
    let other = shelf.place(second)?;
    let left = readable.filter(one);
    let right = readable.filter(other);
    let Scratch { steps, symbols } = scratch;
    distinguish(&left, &right, second, steps, symbols, witness)
}
