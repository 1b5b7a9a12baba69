// What comparing two filters answers. An Option of a length would say the same, but its None not that they are equivalent.

#[derive(Clone, Copy, Debug, PartialEq)]
pub enum Comparison {
    // The two filters do the same to every text.
    Equivalent,
    // They do not do the same to a text of this length, which stands at the front of the witness.
    Distinguished(usize),
}
