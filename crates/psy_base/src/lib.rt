//! What every crate of psyc stands on: names as bytes, the limits of the profile, want of memory,
//! and the list and box that contracts see as plain data.
//! It may know bytes and numbers; nothing of the language.
#![tactic(auto)]

mod edge;
pub mod limits;
mod memory;
mod message;
mod sizes;
mod text;
mod ways;

pub use edge::Edge;
pub use memory::Memory;
pub use message::Message;
pub use sizes::Sizes;
pub use sqlite_items::{Boxed, Items};
pub use text::Text;
pub use ways::{SendWay, Ways};
