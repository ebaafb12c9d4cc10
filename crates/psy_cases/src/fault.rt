//! Why a text of cases can't be read.
use psy_base::Memory;
use std::alloc::{AllocError, AllocFailed};
use thiserror::Error;

/// What is wrong with a line of a text of cases.
#[derive(Clone, Copy, Debug, PartialEq, Eq, Error)]
pub enum Fault {
    /// It begins with no word that begins a statement.
    #[error("no statement begins so")]
    NoStatement,
    /// It belongs to a body, and no statement with one stands above it.
    #[error("no body is open here")]
    NoBody,
    /// It belongs to a case, and no `case` stands above it.
    #[error("no case is open here")]
    NoCase,
    /// The case above it doesn't say what is asked, or which status is wanted.
    #[error("the case above asks nothing, or wants no status")]
    Unfinished,
    /// No file with this name stands above it.
    #[error("no such file stands above")]
    NoFile,
    /// A number is missing, or isn't one of 32 bits, or of 8 bits where it is a status.
    #[error("a number is missing or out of its range")]
    BadNumber,
    /// A `\` isn't followed by what may follow it.
    #[error("no such escape")]
    BadEscape,
    /// A word of a command isn't text.
    #[error("a word isn't text in UTF-8")]
    NoText,
    /// Want of memory.
    #[error("out of memory")]
    Memory,
}

impl From<AllocError> for Fault {
    fn from(_error: AllocError) -> Fault {
        Fault::Memory
    }
}

impl<T: Drop> From<AllocFailed<T>> for Fault {
    fn from(_failed: AllocFailed<T>) -> Fault {
        Fault::Memory
    }
}

impl From<Memory> for Fault {
    fn from(_memory: Memory) -> Fault {
        Fault::Memory
    }
}
