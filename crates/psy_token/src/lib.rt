//! Cuts a program's text into tokens, or finds its first fault.
//! It may know bytes and tokens; no grammar.
#![tactic(auto)]

mod comment;
mod fault;
pub mod laws;
mod number;
mod pass;
mod scan;
mod spelling;

pub use fault::LexFault;
pub use number::decimal_value;
pub use pass::lex;
pub use spelling::{reserved, sign_spelling, word_spelling};
