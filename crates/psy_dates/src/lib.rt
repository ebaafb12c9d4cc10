//! The work at a date: actions that end there commit, what receivers took and what has expired goes, messages enter, variables publish,
//! agents that were stopped fall silent, and the next actions start; and what all agents share between two dates.
//! It may know the history's definitions; no cycles, no machines.
#![tactic(auto)]

mod calendar;
mod clears;
mod commits;
mod date;
mod due;
mod enters;
pub mod laws;
mod movers;
mod moves;
mod opening;
mod outbox;
mod plan;
mod resume;
mod rings;
mod roll;
mod seat;
mod settles;
mod shared;
mod still;

pub use calendar::Calendar;
pub use date::at_date;
pub use movers::Movers;
pub use opening::{AgentOpening, Begun, NextAction, Opening, StreamOpening, VarOpening};
pub use outbox::Outbox;
pub use plan::Plan;
pub use psy_code::Sent;
pub use roll::Roll;
pub use seat::{Phase, Seat};
pub use shared::Shared;
