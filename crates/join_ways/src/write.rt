// Writing a way: its outputs, and its rule.
ghost use Rattle.std.specs.Prelude.{◌≡◌, ◌≤◌, [], ◌∷◌, map, length};
ghost use Rattle.std.specs.List.{AllByRecursion};
ghost use Rattle.alphabet.specs.Model.{SoundTerm};
ghost use Rattle.join_laws.specs.Ways.{followed_by};
ghost use Rattle.join_ways.specs.Written.{Wrote, Same};
ghost use Rattle.join_ways.specs.Paths.{within, SoundSpan, along};

use crate::slice_vec::SliceVec;
use alphabet::Alphabet;
use queue::Full;
use table::check;

// The joined filter is over a limit, or over a list that was handed in.
#[derive(Clone, Copy)]
pub struct TooLarge;

// The queue of the pairs is full.
impl From<Full> for TooLarge {
    ghost from_gives = { λ _ r. r ≡ record {} };

    fn from(_full: Full) -> TooLarge {
        TooLarge
    }
}

// A stretch of an output list. The library's ranges are not `Copy`, and a path is an array of stretches.
#[derive(Clone, Copy)]
pub struct Span {
    pub from: usize,
    pub to: usize,
}

// The most outputs of one rule, and of one state.
pub const MOST_AT_ONCE: usize = check::MOST_AT_ONCE as usize;

impl<'a, T: Copy> SliceVec<'a, T> {
    // An empty list.
    pub fn new(items: &'a mut [T]) -> SliceVec<'a, T>
        ensures empty { result.count ≡ 0 }
        ensures items { result.items.now ≡ items.old }
        ensures same { result.items.ghost_name ≡ items.entry.ghost_name }
    {
        SliceVec { items, count: 0 }
    }

    // Puts an item behind the others; refuses where there is no room.
    pub fn push(&mut self, item: T) -> Result<(), TooLarge>
        ensures wrote { Wrote (item ∷ []) self.old self.new result }
        ensures same { Same self.old self.new }
    {
        if self.count >= self.items.len() {
            return Err(TooLarge);
        }
        self.items[self.count] = item;
        self.count += 1;
        Ok(())
    }

    // Gives the slice back, with the items at its front, and answers how many there are.
    pub fn finish(self) -> usize
        ensures count { result ≡ self.entry.count }
        ensures items { self.exit.0.now ≡ self.entry.items.now }
    {
        let SliceVec { items, count } = self;
        count
    }
}

// Writes a term followed by each of others.
fn write_followed<A: Alphabet>(
    term: A::Term,
    others: &[A::Term],
    outputs: &mut SliceVec<'_, A::Term>,
) -> Result<(), TooLarge>
    requires term { SoundTerm A.model term }
    requires others { AllByRecursion (SoundTerm A.model) others.now }
    ensures wrote { Wrote (followed_by A.model term others.now) outputs.old outputs.new result }
    ensures same { Same outputs.old outputs.new }
{
    for other in others {
        // sound filters have no two terms here that are nowhere both defined
        if let Some(followed) = A::followed(term, *other) {
            outputs.push(followed)?;
        }
    }
    Ok(())
}

// Writes the outputs of a way: each term followed by the outputs of the rule that took it.
pub(crate) fn write_along<A: Alphabet>(
    terms: &[A::Term],
    second: &[A::Term],
    path: &[Span],
    outputs: &mut SliceVec<'_, A::Term>,
) -> Result<(), TooLarge>
    requires terms { AllByRecursion (SoundTerm A.model) terms.now }
    requires path { length path.now ≡ length terms.now }
    requires spans { AllByRecursion (SoundSpan A.model second.now) path.now }
    ensures wrote { Wrote (along A.model terms.now (map (within second.now) path.now)) outputs.old outputs.new result }
    ensures same { Same outputs.old outputs.new }
{
    for (depth, term) in terms.iter().enumerate() {
        let Span { from, to } = path[depth];
        write_followed::<A>(*term, &second[from..to], outputs)?;
    }
    Ok(())
}
