// Replaying the steps of a comparison: what a filter writes for the text of a step, with no rule looked up.
#![tactic(auto)]

pub mod compared;
pub mod lag;
pub mod sizes;
pub mod written;

pub use compared::{agree, same_lags};
pub use sizes::longest;
pub use written::{output, whole};
