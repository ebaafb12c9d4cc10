//! From a program's bytes to its unit, and from a unit and the ways of its actions to what a run of it needs; or why there is none.
//! It may know what reads and judges texts, and what makes and measures code and graphs, through their public calls; nothing of files, runs and
//! commands.
#![tactic(auto)]

mod extent;
pub mod laws;
mod programs;
mod rates;
mod refusal;
mod supply;
mod ways;

pub use extent::Extent;
pub use programs::{Program, compile, program_of};
pub use rates::lines_of;
pub use refusal::{Refusal, Stop};
pub use supply::{Supplied, graphs, graphs_by, plan, plan_by, sizes, sizes_by};
pub use ways::{Coded, with_ways};
