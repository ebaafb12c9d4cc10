//! Compares two logs of runs, and tells the first line in which they differ.
//! It may know notes of a run, and the lines that say them.
#![tactic(auto)]

mod compare;
mod fault;
mod text;

pub use fault::DiffFault;
pub use text::diff;
