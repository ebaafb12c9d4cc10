//! States of a run as bytes, written and read: where each agent, variable and stream is behind a date.
//! It may know plans, openings and action graphs; nothing that runs.
#![tactic(auto)]

mod agents;
mod fault;
mod fields;
mod figures;
pub mod laws;
pub mod limits;
mod numbers;
mod page;
mod phases;
mod reading;
mod spelling;
mod streams;
mod variables;

pub use fault::{SpellFault, StateFault};
pub use reading::read;
pub use spelling::spell;
