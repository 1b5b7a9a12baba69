// Tests of joining, over bytes and marks.
#![tactic(auto)]

#[cfg(test)]
mod joined;
#[cfg(test)]
mod limits;
#[cfg(test)]
mod samples;
#[cfg(test)]
mod tests;
