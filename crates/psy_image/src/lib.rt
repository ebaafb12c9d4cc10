//! Code images: a program's declarations and code as bytes, written and read.
//! It may know units, code and what a name is; no statements, and nothing that runs.
#![tactic(auto)]

mod agents;
mod declarations;
mod decoding;
mod encoding;
mod fault;
mod fields;
mod functions;
mod image;
mod instructions;
pub mod laws;
pub mod limits;
mod names;
mod numbers;
mod seen;
mod spelling;

pub use agents::AgentLists;
pub use decoding::decode;
pub use encoding::encode;
pub use fault::ImageFault;
pub use image::Image;
pub use numbers::number;
pub use seen::{Claim, Seen};
