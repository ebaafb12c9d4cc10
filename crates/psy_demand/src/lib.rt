//! Whether the work that can fall due in each length fits into it, by the action graphs of all agents or, for one processor, by lists of demands.
//! It may know action graphs; nothing of the programs that they are drawn of.
#![tactic(auto)]

mod demand;
mod finding;
mod graphs;
mod lists;
mod sums;

pub use demand::{Verdict, feasible};
pub use finding::Finding;
pub use graphs::criterion;
pub use lists::weights_of_all;
