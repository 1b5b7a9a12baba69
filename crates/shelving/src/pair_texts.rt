// Telling the holdings of a collection apart, pair by pair.
ghost use Rattle.std.specs.Prelude.{◌≡◌, ◌+◌, ◌<◌, ◌≤◌, length, IfOk, OnOk};
ghost use Rattle.holdings.specs.Memory.{memory_of};
ghost use Rattle.shelf_law.specs.Holdings.{Has, numbered};
ghost use Rattle.shelf_law.specs.Scratch.{scratch_of};
ghost use Rattle.shelf_law.specs.Comparing.{Earliest};
ghost use Rattle.shelving.specs.Runs.{Told};
ghost use Rattle.shelving.specs.Separable.{Separable};

use crate::report::{Pair, ToldPair};
use alphabet::Alphabet;
use answers::Comparison;
use holdings::Shelf;
use shelf::Scratch;
use shelf::compare::compare;
use std::alloc::{AllocError, Global};
use steps::Step;

// The earliest text that distinguishes two holdings, by way of the witness. Scratch and witness are three slices here, and what
// is asked of them stands beside them: a struct that holds them could not be lent again in the next turn.
fn text_between<A: Alphabet>(
    heap: Global,
    shelf: &Shelf<'_, A>,
    first: usize,
    second: usize,
    steps: &mut [Step],
    symbols: &mut [u32],
    witness: &mut [u32],
) -> Result<Vec<u32>, AllocError>
    requires separable { Separable A.model (scratch_of (length steps.old) (length symbols.old)) (length witness.old) (memory_of shelf.now) }
    requires low { 1 ≤ first }
    requires order { first < second }
    requires high { second ≤ shelf.now.head.holdings }
    ensures { IfOk result (λ text. Earliest A.model (numbered (memory_of shelf.now) first) (numbered (memory_of shelf.now) second) text.items) }
{
    let scratch = Scratch { steps, symbols };
    let answer = compare(shelf, first, second, scratch, &mut *witness);
    // Comparing two holdings tells them apart, so no other answer comes.
    let Ok(Comparison::Distinguished(length)) = answer else {
        return Ok(Vec::new(heap));
    };
    Vec::from_slice(heap, &witness[0..length])
}

// Tells a holding apart from each later one, and adds the pairs.
fn tell_row<A: Alphabet>(
    heap: Global,
    shelf: &Shelf<'_, A>,
    first: usize,
    steps: &mut [Step],
    symbols: &mut [u32],
    witness: &mut [u32],
    pairs: &mut Vec<ToldPair>,
) -> Result<(), AllocError>
    requires separable { Separable A.model (scratch_of (length steps.old) (length symbols.old)) (length witness.old) (memory_of shelf.now) }
    requires low { 1 ≤ first }
    requires high { first ≤ shelf.now.head.holdings }
    requires few { shelf.now.head.holdings ≤ 16 }
    requires before { Told A.model (memory_of shelf.now) first (first + 1) pairs.old.items }
    ensures { OnOk result (Told A.model (memory_of shelf.now) first (shelf.now.head.holdings + 1) pairs.new.items) }
{
    let last = shelf.head.holdings;
    for second in first + 1..=last {
        let text = text_between(
            heap,
            shelf,
            first,
            second,
            &mut *steps,
            &mut *symbols,
            &mut *witness,
        )?;
        let pair = Pair {
            first,
            second,
            length: text.as_slice().len(),
        };
        pairs.push(ToldPair { pair, text })?;
    }
    Ok(())
}

// Tells every two holdings apart, by the first number and then the second.
pub fn tell_pairs<A: Alphabet>(
    heap: Global,
    shelf: &Shelf<'_, A>,
    steps: &mut [Step],
    symbols: &mut [u32],
    witness: &mut [u32],
) -> Result<Vec<ToldPair>, AllocError>
    requires separable { Separable A.model (scratch_of (length steps.old) (length symbols.old)) (length witness.old) (memory_of shelf.now) }
    requires few { shelf.now.head.holdings ≤ 16 }
    ensures { IfOk result (λ pairs. Told A.model (memory_of shelf.now) (shelf.now.head.holdings + 1) (shelf.now.head.holdings + 2) pairs.items) }
{
    let mut pairs = Vec::new(heap);
    let last = shelf.head.holdings;
    for first in 1..=last {
        tell_row(
            heap,
            shelf,
            first,
            &mut *steps,
            &mut *symbols,
            &mut *witness,
            &mut pairs,
        )?;
    }
    Ok(pairs)
}
