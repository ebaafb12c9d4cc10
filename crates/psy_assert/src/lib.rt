//! Tells whether a run keeps what is asserted of it.
//! It may know notes of a run.
#![tactic(auto)]

mod cut;
mod judging;
mod keeping;
mod sought;
mod sum;
mod tally;
mod terms;
#[cfg(test)]
mod tests;
mod verdict;

pub use judging::judge;
pub use keeping::first_broken;
pub use terms::{Assertion, Claim, Relation, Span};
pub use verdict::Verdict;
