// Filing the bodies of a stored shelf on a fresh one, and telling the holdings apart, in memory of its own.
ghost use Rattle.std.specs.Prelude.{◌≡◌, ◌≤◌, true, [], length, IfOk};
ghost use Rattle.holdings.specs.Memory.{memory_of, fits as fitting};
ghost use Rattle.shelf_law.specs.Scratch.{scratch_of};
ghost use Rattle.shelf_law.specs.History.{Reached};
ghost use Rattle.shelving.specs.declared.shelve.ShelveFault.TheVariants.{NoMemory};
ghost use Rattle.shelving.specs.Shelving.{Shelving, Shelves};

use crate::filing::file_bodies;
use crate::pair_texts::tell_pairs;
use crate::report::{ToldPair, Verdict};
use alphabet::Alphabet;
use holdings::Shelf;
use shelf::open::open;
use std::alloc::{AllocError, Global};
use steps::Step;

// What became of the bodies, and the holdings told apart.
#[derive(Drop)]
pub struct Shelved {
    pub verdicts: Vec<Verdict>,
    pub pairs: Vec<ToldPair>,
}

// Why nothing was filed.
#[derive(Clone, Copy)]
pub enum ShelveFault {
    // Head, ledger and lists of the bodies do not fit each other.
    Misfit,
    // There is not enough memory.
    NoMemory,
}

impl From<AllocError> for ShelveFault {
    ghost from_gives = { λ _ r. r ≡ NoMemory };

    fn from(_fault: AllocError) -> ShelveFault {
        ShelveFault::NoMemory
    }
}

// Files each body on a shelf, in order, and then tells every two holdings apart.
fn shelve_on<A: Alphabet>(
    heap: Global,
    bodies: &Shelf<'_, A>,
    shelf: &mut Shelf<'_, A>,
    slots: &mut [Step],
    scratch: &mut [u32],
    witness: &mut [u32],
) -> Result<Shelved, AllocError>
    requires fits { fitting (memory_of bodies.now) ≡ true }
    requires begins { Reached A.model [] (memory_of shelf.old) }
    requires empty { shelf.old.head.holdings ≡ 0 }
    requires witness { length slots.old ≤ length witness.old }
    ensures { IfOk result (Shelving A.model (scratch_of (length slots.old) (length scratch.old)) (memory_of bodies.now) (memory_of shelf.old)) }
{
    let verdicts = file_bodies(heap, bodies, &mut *shelf, &mut *slots, &mut *scratch)?;
    let pairs = tell_pairs(heap, &*shelf, slots, scratch, witness)?;
    Ok(Shelved { verdicts, pairs })
}

// Files each body on a fresh shelf, in order, with so many slots for steps and so many scratch symbols; then tells every
// two holdings apart. The lists of the shelf are as long as those of the bodies.
pub fn shelve<A: Alphabet>(
    heap: Global,
    bodies: &Shelf<'_, A>,
    steps: usize,
    symbols: usize,
) -> Result<Shelved, ShelveFault>
    ensures { Shelves A.model steps symbols (memory_of bodies.now) result }
{
    if !bodies.fits() {
        return Err(ShelveFault::Misfit);
    }
    let mut ledger = Vec::from_slice(heap, &*bodies.ledger)?;
    let mut states = Vec::from_slice(heap, &*bodies.states)?;
    let mut rules = Vec::from_slice(heap, &*bodies.rules)?;
    let mut outputs = Vec::from_slice(heap, &*bodies.outputs)?;
    let mut slots = vec![in heap; Step::default(); steps]?;
    let mut scratch = vec![in heap; 0u32; symbols]?;
    let mut witness = vec![in heap; 0u32; steps]?;
    let mut shelf = open(
        ledger.as_mut_slice(),
        states.as_mut_slice(),
        rules.as_mut_slice(),
        outputs.as_mut_slice(),
    );
    let shelved = shelve_on(
        heap,
        bodies,
        &mut shelf,
        slots.as_mut_slice(),
        scratch.as_mut_slice(),
        witness.as_mut_slice(),
    )?;
    Ok(shelved)
}
