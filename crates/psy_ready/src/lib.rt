//! The agents that wait for the processor, each with the deadline of its action, and which of them comes next.
//! It may know deadlines; nothing of actions.
#![tactic(auto)]

mod ready;

pub use ready::Ready;
