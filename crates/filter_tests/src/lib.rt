// Tests of the table check and of transducing, over bytes.
#![tactic(auto)]

#[cfg(test)]
mod faults;
#[cfg(test)]
mod samples;
#[cfg(test)]
mod texts;
