//! Lists the instructions of a program's actions, with the numbers by which a script's stalls name them.
//! It may know units and their code, and templates; nothing of runs.
#![tactic(auto)]

mod instr;
pub mod laws;
mod names;
mod text;
mod way;

pub use text::list;
