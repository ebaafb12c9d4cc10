//! The compiler: from a unit to the code that acts as its statements.
//! It may know trees, code and meaning; no machine.
#![tactic(auto)]

mod agents;
mod expressions;
mod functions;
mod instrs;
pub mod laws;
mod layout;
mod limits;
mod statements;
mod whole;

pub use whole::generate;
