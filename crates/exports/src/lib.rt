// The library for C and Rust: byte filters handed in as flat lists, and checked, put to work, compared and joined.
#![tactic(auto)]

pub mod answer;
pub mod calls;
pub mod flat;
pub mod joining;
pub mod owned;
