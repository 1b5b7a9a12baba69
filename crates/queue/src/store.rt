ghost use Rattle.std.specs.Prelude.{◌≤◌, length};

// The first `made` slots hold the entries in the order in which they came, and the first `taken` of those were taken.
// The slots are the caller's, who has no heap, so they are a slice with counts and no `Vec`.
#[derive(Drop)]
pub struct Queue<'a, T: Copy> {
    pub(crate) slots: &'a mut [T],
    pub(crate) taken: usize,
    pub(crate) made: usize,
    ghost ordered: { taken ≤ made },
    ghost fits: { made ≤ length slots.now },
}

// No slot is left for an entry.
#[derive(Clone, Copy, Debug, PartialEq)]
pub struct Full;
