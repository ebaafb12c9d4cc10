//! From the tokens of a program's text to its tree.
//! It may know tokens and trees; no bytes.
#![tactic(auto)]

mod cursor;
mod deep;
mod expr;
mod fault;
mod item;
pub mod laws;
mod program;
mod reader;
mod stmt;

pub use fault::ParseFault;
pub use program::parse;
