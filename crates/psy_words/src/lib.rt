//! What is wrong with the words of a command line: the word at fault, or what is missing, and the form of the command; and that there are no options.
//! It may know the forms of the commands, and what a number is; no file.
#![tactic(auto)]

mod fault;
mod form;
mod option;
mod sentences;

pub use fault::words_told;
pub use option::option_told;
