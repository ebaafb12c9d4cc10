//! Writes the run in a file, or in a text in memory, in another form, as a table or as a value change dump, however long it is.
//! It may know the two forms, the passes over long files, and how names are shown.
#![tactic(auto)]

mod exporting;
mod forms;
pub mod laws;
mod refusals;
mod saying;
mod text;
mod text_sink;

pub use exporting::{export, refusal};
pub use forms::Format;
pub use refusals::{more_line, unlisted_line, unread_line};
pub use saying::{Said, say};
pub use text::export_text;
