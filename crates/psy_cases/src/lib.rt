//! Cases as data: what a command is asked over files in memory, and which answer is wanted, read from texts that a person can write.
#![tactic(auto)]

mod answer;
mod body;
mod case;
mod command;
mod escape;
mod fault;
mod files;
mod numbers;
mod reader;
mod report;
mod run;
mod statement;
mod want;

pub use answer::Answer;
pub use command::{Asked, Command};
pub use run::run_list;
