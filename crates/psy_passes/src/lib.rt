//! A run's log with the names that its summary lists; and the passes over one that is read piece by piece, in memory that doesn't grow with
//! its length: for its summary, for the names of its notes, and for what is told of them one by one.
//! It may know notes of a run, files that are read piece by piece, and sinks; not what is told.
#![tactic(auto)]

mod fault;
pub mod laws;
mod listed;
mod name_check;
mod names;
mod nowhere;
mod passes;
mod progress;
mod read;
mod reading;
mod scan_fault;
mod silent;
mod strict;
mod tell;

pub use fault::PassFault;
pub use listed::Listed;
pub use names::Names;
pub use nowhere::Nowhere;
pub use passes::{names_of, notes_of, survey, write_text, write_told};
pub use read::{Log, read_log};
pub use reading::{LINES, scan};
pub use scan_fault::ScanFault;
pub use tell::{Tell, TellFault};
