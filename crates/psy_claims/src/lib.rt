//! Reads assertions, one a line, and tells the first that a run doesn't keep.
//! It may know the words of a line, assertions, and the log of a run.
#![tactic(auto)]

mod breach;
mod claimed;
mod fault;
pub mod laws;
mod line;
mod numbers;
mod read;
mod tried;
mod words;

pub use claimed::Claimed;
pub use fault::{ClaimFault, Slip};
pub use read::read_claims;
pub use tried::expect;
