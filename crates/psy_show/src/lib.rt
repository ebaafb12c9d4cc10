//! A text as it is shown on a screen: character by character, nothing that a screen obeys among them; and a line of it around a place, with a mark below.
//! It may know characters and how wide they are; nothing of what is shown.
#![tactic(auto)]

mod column;
mod cut;
mod front;
pub mod laws;
mod line;
mod text;

pub use front::add_shown_in;
pub use line::add_line;
pub use text::{add_shown, chars_len, shown};
