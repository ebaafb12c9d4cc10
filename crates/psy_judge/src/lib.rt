//! Decides whether code of any origin is verified, and tells the least of its faults. It may know units, code and ways; no text, no compiler.
#![tactic(auto)]

mod circles;
mod climbing;
mod ends;
mod fault;
mod heights;
mod needs;
mod orders;
mod owned;
mod rules;
mod steps;
mod verdict;
mod walked;
mod whose;

pub use verdict::{VerifyFault, judge};
