// Tests of stored shelves: each fault of a file, cut files, and round trips.
#![tactic(auto)]

#[cfg(test)]
mod files;
#[cfg(test)]
mod shelves;
#[cfg(test)]
mod tests;
