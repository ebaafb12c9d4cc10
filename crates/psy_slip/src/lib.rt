//! What is wrong with a line of inputs or of a script: the word at fault, and what is missing; what the program tells of it; and whether a file looks like one
//! of another sort. It may know the words of a line and their forms, those of earlier lines, and the tokens with which a program declares names; no grammar.
#![tactic(auto)]

mod agents;
mod beside;
mod declared;
mod earlier;
mod look;
mod names;
mod numbers;
mod range;
mod sentences;
mod slip;
mod sought;
mod statement;

pub use beside::beside_hint;
pub use look::{Look, file_hint, is_program};
pub use slip::{File, slip_line};
