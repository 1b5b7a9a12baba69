// Putting a sound filter on a shelf that can be read: scratch against every holding, doubles, room.
#![tactic(auto)]

pub mod doubles;
pub mod place;
pub mod scratch;
