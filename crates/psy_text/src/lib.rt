//! Reads the bytes of texts, and writes numbers into them: names, numbers and values at the front of a text, the words of a line, and the lines.
//! It may know bytes and numbers; nothing of what a line says.
#![tactic(auto)]

pub mod decimal;
pub mod front;
pub mod laws;
pub mod line;
mod numeral;
pub mod run;
pub mod whole;
pub mod word;
pub mod write;
