//! Text by templates: constants with holes, in which names, numbers and values stand, escaped where that is asked for.
//! It may know bytes and numbers; nothing of what a text says.
#![tactic(auto)]

mod page;
mod piece;
mod template;
mod told;

pub use page::Page;
pub use piece::Piece;
pub use template::fill;
pub use told::{Told, about, about_some, add_hint, first_told, hint, say};
