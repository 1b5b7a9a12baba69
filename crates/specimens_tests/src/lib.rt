// Tests of the cases that lie at a limit: the faults of a table, by number.
#![tactic(auto)]

#[cfg(test)]
mod limits;
