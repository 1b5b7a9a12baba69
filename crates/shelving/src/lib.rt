// Filing the bodies of a stored shelf one after another, and telling the holdings apart pair by pair.
#![tactic(auto)]

pub mod filing;
pub mod pair_texts;
pub mod report;
pub mod shelve;

pub use report::{Pair, ToldPair, Verdict};
pub use shelve::{ShelveFault, Shelved};
