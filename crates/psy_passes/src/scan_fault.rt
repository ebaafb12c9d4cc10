//! Why a run isn't read to its end.
use thiserror::Error;

/// Why a run isn't read to its end.
#[derive(Clone, Copy, Debug, PartialEq, Eq, Error)]
pub enum ScanFault {
    /// The first line that isn't in form, counted from 1; one more than there are lines where the text ends too early.
    #[error("line {line} isn't in form")]
    Line { line: usize },
    /// There are more lines than may be.
    #[error("there are too many lines")]
    Many,
    /// The line of the note of which nothing is told.
    #[error("nothing is told of line {line}")]
    Refused { line: usize },
    /// The file can't be read.
    #[error("the file can't be read")]
    Unread,
    /// What is told can't be written.
    #[error("the text can't be written")]
    Unwritten,
    #[error("out of memory")]
    Memory,
}
