// The shelf: a collection of filters in its caller's memory, on which each treatment stands once. Every call takes any
// contents of that memory, any draft, numbers, text and scratch; a refusal names its fault and changes nothing.
//
// - `open` makes a shelf over a ledger and three lists, `file` puts a filter on it, `join` the join of two holdings;
// - `compare` tells two holdings apart, `transduce` puts one to work.
#![tactic(auto)]

pub mod compare;
pub mod file;
pub mod join_holdings;
pub mod lent;
pub mod open;
pub mod transduce;

pub use answers::{Comparison, Fault};
pub use holdings::{Entry, Head, Shelf};
pub use lent::{JoinLists, Scratch};
