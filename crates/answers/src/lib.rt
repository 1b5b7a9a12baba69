// What the calls on a shelf answer: their faults, each with the fault below it whole, and the outcome of a comparison.
#![tactic(auto)]

pub mod comparison;
pub mod fault;

pub use comparison::Comparison;
pub use fault::{Fault, Report};
