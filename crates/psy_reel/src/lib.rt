//! Files that are read piece by piece, as often as it takes; a text in memory is one too.
//! It may know files; nothing of what they hold.
#![tactic(auto)]

mod file_reel;
mod reel;
#[cfg(test)]
mod tests;
mod text_reel;

pub use file_reel::FileReel;
pub use reel::{BeginFault, Reel};
pub use text_reel::TextReel;
