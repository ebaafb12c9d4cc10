//! Draws the run in a file as a picture, by its program and inputs where they are given, however long it is.
//! It may know the passes over long files, what gathers a picture of notes that come one by one, and what a program tells of a run.
#![tactic(auto)]

mod adding;
mod checking;
mod counting;
mod fault;
mod filming;
mod gathering;
mod matching;
mod own;
mod passing;
mod source;

pub use fault::FilmFault;
pub use filming::film;
pub use passing::match_run;
pub use source::Source;
