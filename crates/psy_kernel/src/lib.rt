//! The kernel: it runs the code of a program's agents under earliest deadline first and budgets, one date or stretch of processor cycles
//! after the other, and tells what is published at each date.
//! It may know machines, charges, dates, and the forms of lines; no text of a program, no output.
#![tactic(auto)]

mod engine;
mod eyes;
mod fault;
mod kernel;
pub mod laws;
mod seen;
mod stage;

pub use fault::FreezeFault;
pub use kernel::Kernel;
pub use psy_budget::Stall;
pub use seen::Seen;
pub use stage::Stage;
