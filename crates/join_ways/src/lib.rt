// Ways through the second of two filters, written as rules with their outputs.
#![tactic(auto)]

pub mod course;
pub mod slice_vec;
pub mod ways;
pub mod write;

pub use course::Course;
pub use slice_vec::SliceVec;
pub use ways::add_ways;
pub use write::{MOST_AT_ONCE, Span, TooLarge};
