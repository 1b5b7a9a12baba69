// Tests of the calls on a shelf: what they answer, and what they leave as it was.
#![tactic(auto)]

#[cfg(test)]
mod byte_calls;
#[cfg(test)]
mod calls;
#[cfg(test)]
mod comparing;
#[cfg(test)]
mod damage;
#[cfg(test)]
mod drafts;
#[cfg(test)]
mod filing;
#[cfg(test)]
mod joins;
#[cfg(test)]
mod memory;
#[cfg(test)]
mod numbers;
#[cfg(test)]
mod samples;
#[cfg(test)]
mod scratch;
#[cfg(test)]
mod transducing;
