//! Trials: programs from their text to what a machine does with their code, and what is said of them before
//! they run.
//! It may know all of these crates.
#![tactic(auto)]

#[cfg(test)]
mod acting;
pub mod borrowing;
#[cfg(test)]
mod look;
#[cfg(test)]
mod tests;
#[cfg(test)]
mod texts;
