// The filters that come with the programs, as tables.
#![tactic(auto)]

pub mod bytes;
pub mod shelf_marks;
