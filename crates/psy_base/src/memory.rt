//! Want of memory, as an error.
use std::alloc::{AllocError, AllocFailed};
use thiserror::Error;

/// Want of memory. No contract ties it to a growth that was refused: it may come at any call whose
/// answer has it.
#[derive(Clone, Copy, Debug, PartialEq, Eq, Error)]
#[error("out of memory")]
pub struct Memory;

impl From<AllocError> for Memory {
    fn from(_error: AllocError) -> Memory {
        Memory
    }
}

impl<T: Drop> From<AllocFailed<T>> for Memory {
    fn from(_refused: AllocFailed<T>) -> Memory {
        Memory
    }
}
