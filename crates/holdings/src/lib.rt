// Holdings: the filters that a shelf keeps in its caller's memory, where each one stands, and whether all are sound.
#![tactic(auto)]

pub mod append;
pub mod memory;
pub mod open;
pub mod reading;
pub mod views;

pub use memory::{Entry, Head, Shelf};
pub use reading::Readable;
