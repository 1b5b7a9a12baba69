// The reader of stored shelves: it checks a file, and hands out the parts of each body, uncopied.
#![tactic(auto)]

pub mod body;
pub mod open;
pub mod places;

pub use body::{Bodies, Body, Reader, Span};
