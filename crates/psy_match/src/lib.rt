//! What a program tells of what psyc wrote: whether a run or a graph is the program's, from when on its variables are silent, of which processors its
//! agents are, what its inputs publish, and the lines of its text in which actions begin.
//! It may know notes, units, lists of inputs, tokens and how a line is shown; nothing of pictures but what is asked of notes before they are drawn.
#![tactic(auto)]

mod fed;
mod graph;
mod home;
pub mod laws;
mod point;
mod run;
mod silent;

pub use fed::input_notes;
pub use graph::foreign_in_graph;
pub use home::homes;
pub use point::point_lines;
pub use run::{Belonging, foreign_in_run};
pub use silent::{Silencing, silences};
