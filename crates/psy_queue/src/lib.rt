//! The messages of a stream that its receiver can still take, in their order.
//! It may know messages; no agents, no clocks.
#![tactic(auto)]

mod queue;
mod room;

pub use psy_base::Message;
pub use queue::Queue;
pub use room::MOST_PLACES;
