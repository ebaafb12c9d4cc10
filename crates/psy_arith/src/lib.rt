//! The operators of the language and their values at each width, why an action traps, and the tables of instructions.
//! It may know numbers; no text.
#![tactic(auto)]

pub mod laws;
mod operators;
mod table;
mod width;
pub mod widths;

pub use operators::{Op1, Op2, Trap, apply1, apply2};
pub use table::{Row, Table};
pub use width::Width;
