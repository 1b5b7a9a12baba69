// A list over a caller's slice.
ghost use Rattle.std.specs.Prelude.{◌≤◌, length};

// What was pushed so far stands at the front of the slice; there is no heap for a `Vec`. Rules and outputs are passed as
// two such lists: for a struct that holds both, the borrow checker has no rule by which the slices go back to the caller.
#[derive(Drop)]
pub struct SliceVec<'a, T: Copy> {
    pub items: &'a mut [T],
    pub count: usize,
    pub ghost fits: { count ≤ length items.now },
}
