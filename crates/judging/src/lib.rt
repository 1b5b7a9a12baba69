// Judging texts in a comparison of two filters: which are worth a step, and which are covered by those that have one.
#![tactic(auto)]

pub mod frame;
pub mod judge;
pub mod pair;

pub use frame::{Frame, frame_of};
pub use pair::FilterPair;
