//! The action graphs of a program's agents: which actions an agent may start, by point and phase, and which may follow which.
//! It may know clocks, points and what follows them; statements through psy_flow alone.
#![tactic(auto)]

mod agents;
mod cycle;
mod edges;
mod explore;
mod fault;
mod graph;
pub mod laws;
mod place;
mod times;

pub use agents::{build, build_by};
pub use cycle::common_divisor;
pub use fault::GraphFault;
pub use graph::{Graph, Node};
