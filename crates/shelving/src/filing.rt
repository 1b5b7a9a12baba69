// Filing bodies one after another.
ghost use Rattle.std.specs.Prelude.{◌≡◌, true, length, IfOk};
ghost use Rattle.holdings.specs.Memory.{memory_of, fits as fitting};
ghost use Rattle.shelf_law.specs.Scratch.{scratch_of};
ghost use Rattle.shelving.specs.Runs.{Run};

use crate::report::{Verdict, verdict_of};
use alphabet::Alphabet;
use holdings::Shelf;
use shelf::Scratch;
use shelf::file::file;
use std::alloc::{AllocError, Global};
use steps::Step;

// Files each body on a shelf, in order, and answers the verdicts. Steps and symbols are no `Scratch` here: a call uses that
// up, and each filing is lent them anew.
pub fn file_bodies<A: Alphabet>(
    heap: Global,
    bodies: &Shelf<'_, A>,
    shelf: &mut Shelf<'_, A>,
    steps: &mut [Step],
    symbols: &mut [u32],
) -> Result<Vec<Verdict>, AllocError>
    requires fits { fitting (memory_of bodies.now) ≡ true }
    ensures { IfOk result (λ v. Run A.model (scratch_of (length steps.old) (length symbols.old)) (memory_of bodies.now) (memory_of shelf.old) bodies.now.head.holdings v.items (memory_of shelf.new)) }
{
    let mut verdicts = Vec::new(heap);
    let count = bodies.head.holdings;
    // by number, as a shelf gives its holdings
    for i in 0..count {
        let body = bodies.view(i);
        let scratch = Scratch {
            steps: &mut *steps,
            symbols: &mut *symbols,
        };
        let answer = file(&mut *shelf, &body, scratch);
        verdicts.push(verdict_of(answer))?;
    }
    Ok(verdicts)
}
