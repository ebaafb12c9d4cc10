//! Reads what a run is told from outside: the inputs' lists of values, and the script of execution times, orders and rounds.
//! It may know words, names of inputs and agents; no dates, no kernel.
#![tactic(auto)]

mod entry;
mod fault;
mod inputs;
pub mod laws;
mod lines;
mod names;
mod placed;
mod script;
mod statement;

pub use fault::{LineKind, TextFault};
pub use inputs::read_inputs;
pub use script::read_script;
