//! What may stand behind the tokens of a program that isn't finished, and what is told of common slips.
//! It may know tokens and how they are read; no bytes of a text.
#![tactic(auto)]

mod around;
mod brace;
mod fits;
mod follow;
mod foreign;
mod group;
mod hint;
pub mod laws;
mod mend;
mod phrase;
mod slip;
mod terminal;
mod viable;

pub use around::Around;
pub use brace::{Brace, brace_of};
pub use foreign::Foreign;
pub use group::Group;
pub use hint::Hint;
pub use phrase::{Phrase, phrases};
pub use slip::{Remark, advice};
pub use terminal::{EVERY, Terminal};
