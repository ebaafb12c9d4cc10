//! The dated history of a program, its lines, its schedule and its summary; and what follows from these definitions alone: that code and
//! statements have the same history, what its actions keep,
//! and that no action misses its deadline where the processor can supply the demand; and what
//! inputs and scripts are. Nothing runs here.
//! It may know the definitions of psy_meaning; nothing runs.
#![tactic(auto)]

mod inputs;
pub mod laws;
mod processors;
mod told;

pub use inputs::no_lists;
pub use processors::{homes_of, processor_of, processors_of};
pub use psy_budget::Stall;
pub use told::{Inputs, Order, Round, Script};
