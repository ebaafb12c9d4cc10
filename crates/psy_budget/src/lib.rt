//! What an agent's actions are charged: each instruction a cycle, and the cycles of a script's stalls before
//! it, up to the budget of the action.
//! It may know stalls and budgets; no code.
#![tactic(auto)]

mod charge;
pub mod laws;

pub use charge::{Charge, Stall, Tick};
