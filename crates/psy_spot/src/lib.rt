//! The line of a place in a text: its number, and what stands before the place and from it on.
//! It may know bytes; nothing of what a line says.
#![tactic(auto)]

mod scan;
mod spot;

pub use scan::{back_len, feeds};
pub use spot::{Spot, spot_at};
