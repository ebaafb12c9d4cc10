//! The top call of psyc: from words and the bytes of a program to a status and a text.
//! It may know what plans programs, what reads inputs and scripts, what tells and judges traces, what saves and restores states, the door and the kernel,
//! through their public calls.
#![tactic(auto)]

mod asked;
mod clean;
mod commands;
mod costs;
mod image_commands;
mod images;
mod kernels;
pub mod laws;
mod plan;
mod ready;
mod refusal;
mod run;
mod served;
mod state_commands;
mod steps;
mod supply;
mod texts;
mod told;
mod top;
mod trace_commands;

pub use clean::psyc_over_clean;
pub use kernels::{kernel_asked, kernel_of};
pub use refusal::{AgentName, File, Refusal, Stop};
pub use run::{run_loop, write_date, write_summary};
pub use top::psyc;
