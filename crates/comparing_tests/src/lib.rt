// Tests of comparing: which text is the earliest that distinguishes two filters.
#![tactic(auto)]

#[cfg(test)]
mod samples;
#[cfg(test)]
mod tests;
