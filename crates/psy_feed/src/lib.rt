//! Who feeds whom in a program: a text in the language DOT of Graphviz.
//! It may know units, and which of their parts their texts name, and templates; nothing of runs.
#![tactic(auto)]

pub mod laws;
mod looks;
mod names;
mod sends;
mod text;

pub use looks::{stmts_look, stmts_look_back};
pub use names::{agent_name, owner_of, stream_name, variable_name};
pub use sends::stmts_send;
pub use text::flow;
