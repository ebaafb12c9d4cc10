//! The lines that psyc writes, byte by byte, and how a text is brought to a sink. Nothing here takes memory.
//! It may know names as bytes, numbers, kinds of trap and sinks; no program.
#![tactic(auto)]

mod check;
mod dated;
mod form;
mod graph;
mod line;
mod note;
mod refusal;
mod set;
mod summary;
mod write;

pub use form::{Field, Form, Sort};
pub use line::{LINE_BYTES, Line};
pub use note::Note;
pub use write::{WriteFault, write_all_of};
