//! The greatest weights of the paths of a graph that fit a length, at each length up to a greatest one.
//! It may know graphs as their edges; nothing of agents.
#![tactic(auto)]

mod fault;
mod greatest;
pub mod laws;
mod layout;
mod span;
mod table;
mod windows;

pub use fault::WindowFault;
pub use span::Span;
pub use windows::weights;
