//! The instructions of an agent's machine, the code made of them, what an action asks of the world, and
//! the definition of execution.
//! It may know numbers; no trees, no clocks.
#![tactic(auto)]

mod code;
mod instr;
pub mod laws;
mod look;
mod rows;

pub use code::{AgentCode, Code, CopyInit, FunctionCode};
pub use instr::{Binary, Instr};
pub use look::{Look, Sent};
pub use rows::instructions;
