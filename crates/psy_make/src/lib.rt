//! Programs for trials, made from numbers: for each seed the text of one with 8 to 16 agents.
//! It may know numbers and bytes; no tree.
#![tactic(auto)]

mod agent;
mod generator;
pub mod laws;
mod lines;
mod text;

pub use text::make;
