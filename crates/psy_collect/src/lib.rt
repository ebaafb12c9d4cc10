//! The trace of a kernel's run: which actions started, what was published, what each processor's cycles went to, and what was looked at.
//! It may know kernels and the lines of traces; nothing of files and commands.
#![tactic(auto)]

mod cycles;
mod dates;
mod ends;
mod fault;
mod kept;
mod lines;
mod run;
mod stretch;
mod text;
mod units;

pub use fault::CollectFault;
pub use run::collect;
