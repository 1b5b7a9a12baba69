// Trying symbols in a comparison of two filters: the steps that are made behind a step.
#![tactic(auto)]

pub mod attempt;

pub use attempt::expand;
