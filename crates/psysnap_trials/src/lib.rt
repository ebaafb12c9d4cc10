//! Trials of states: the bytes of some that were made by hand, and what is read of some bytes.
#![tactic(auto)]

#[cfg(test)]
mod input;
#[cfg(test)]
mod made;
#[cfg(test)]
mod plans;
#[cfg(test)]
mod read;
#[cfg(test)]
mod spelled;
