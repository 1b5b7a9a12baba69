// The comparison of two filters: the earliest text that distinguishes them, or that none does.
#![tactic(auto)]

pub mod compare;
pub mod search;
