// Filters at work: finding rules, walking along a text, and transducing.
#![tactic(auto)]

pub mod outcome;
pub mod transducing;
pub mod walk;

pub use outcome::{Outcome, TransduceFault};
pub use transducing::{transduce, transduce_sound};
pub use walk::Found;
