//! A sink that hands its bytes on to another, and remembers the last line.
//! It may know sinks; nothing of what is written.
#![tactic(auto)]

mod last_line;
mod tail;

pub use last_line::LastLine;
