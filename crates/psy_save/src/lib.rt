//! What a run leaves, as bytes, and the state that bytes spell for another run to go on from.
//! It may know states as bytes and kernels, through their public calls.
#![tactic(auto)]

mod fault;
pub mod laws;
mod restoring;
mod saving;

pub use fault::SaveFault;
pub use restoring::restore;
pub use saving::save;
