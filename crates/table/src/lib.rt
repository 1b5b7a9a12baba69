// Tables of filters: their entries, their faults, and the check that finds the first fault of any three lists.
#![tactic(auto)]

pub mod check;
pub mod entries;
pub mod fault;
pub mod sound;

pub use check::{final_total, total};
pub use entries::{Draft, Owner, Rule, State};
pub use fault::{FaultCode, TableFault};
pub use sound::Filter;
