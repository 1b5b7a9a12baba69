// The steps of a comparison: what is kept of each text that it looks at, and how steps are found again.
#![tactic(auto)]

pub mod places;
pub mod step;
pub mod text;

pub use places::{find, place_of, steps_needed};
pub use step::{Hand, Side, Step, Visit, side_of};
pub use text::write_text;
