//! The machine of one agent, which executes one instruction a step.
//! It may know code; nothing of statements.
#![tactic(auto)]

mod copies;
mod frames;
mod machine;
mod operands;

pub use machine::{Machine, Step};
