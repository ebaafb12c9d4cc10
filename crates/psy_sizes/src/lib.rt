//! The sizes of the buffers of a program: the rings in which its temporal variables keep their values, the queues in which its streams
//! hold their messages, and the outboxes in which its agents gather what they send.
//! It may know graphs, clocks and what the ways of actions say; no statement and no history.
#![tactic(auto)]

mod buffers;
mod divisors;
mod fault;
pub mod laws;
mod outboxes;
mod queues;
mod readings;
mod spreads;
mod tops;
mod variables;
mod windows;

pub use buffers::{sizes, sizes_by};
pub use fault::SizeFault;
