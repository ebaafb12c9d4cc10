//! Reads back what `psyc run` and `psyc graph` wrote: the notes whose lines a text is, or the first line that isn't in form.
//! It may know the forms of lines, and which may follow which; nothing of programs.
#![tactic(auto)]

mod content;
mod fault;
mod filled;
mod forms;
pub mod laws;
mod line_front;
mod read;
mod stand;
mod told;

pub use fault::TextFault;
pub use forms::{CHECK, GRAPH, LINES, REFUSALS, RUN, read_line, read_note};
pub use line_front::{Front, NOTE_BYTES, read_front};
pub use read::{read_graph, read_run};
pub use stand::Stand;
