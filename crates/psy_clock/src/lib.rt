//! Clocks: the dates at which time moves on for an agent, a variable or a stream.
//! It may know numbers; no text.
#![tactic(auto)]

mod clock;
pub mod laws;

pub use clock::{Clock, ClockFault, PERIOD, derive};
