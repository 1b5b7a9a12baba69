// A first-in first-out queue over a caller's slice. Entries keep their numbers, and stay readable after they were taken.
#![tactic(auto)]

pub mod calls;
pub mod store;

pub use store::{Full, Queue};
