//! Why there are no bytes, or no opening.
ghost use Rattle.std.specs.Prelude.{◌≡◌};

use psy_base::Memory;
use std::alloc::{AllocError, AllocFailed};
use thiserror::Error;

/// Why an opening has no bytes.
#[derive(Clone, Copy, Debug, PartialEq, Eq, Error)]
pub enum SpellFault {
    /// The state would pass 262,144 bytes.
    #[error("the state passes 262144 bytes")]
    Large,
    /// Want of memory.
    #[error("out of memory")]
    Memory,
}

impl From<AllocError> for SpellFault {
    ghost use Rattle.psy_snap.specs.declared.fault.SpellFault.TheVariants.{Memory};

    ghost from_gives = { λ _ fault. fault ≡ Memory };

    fn from(_error: AllocError) -> SpellFault {
        SpellFault::Memory
    }
}

/// Why bytes have no opening.
#[derive(Clone, Copy, Debug, PartialEq, Eq, Error)]
pub enum StateFault {
    /// A fault by its number, and how many bytes stand before it.
    #[error("the state has fault {number} behind {place} bytes")]
    Fault { number: u32, place: u32 },
    /// Want of memory.
    #[error("out of memory")]
    Memory,
}

/// Why a part can't be read.
#[derive(Clone, Copy, Debug, PartialEq, Eq)]
pub enum ReadError {
    /// A fault by its number, and how many bytes were left from it on.
    Bad { number: u32, left: usize },
    /// Want of memory.
    Memory,
}

impl From<Memory> for ReadError {
    ghost use Rattle.psy_snap.specs.declared.fault.ReadError.TheVariants.{Memory};

    ghost from_gives = { λ _ error. error ≡ Memory };

    fn from(_memory: Memory) -> ReadError {
        ReadError::Memory
    }
}

impl From<AllocError> for ReadError {
    ghost use Rattle.psy_snap.specs.declared.fault.ReadError.TheVariants.{Memory};

    ghost from_gives = { λ _ error. error ≡ Memory };

    fn from(_error: AllocError) -> ReadError {
        ReadError::Memory
    }
}

impl<T: Drop> From<AllocFailed<T>> for ReadError {
    ghost use Rattle.psy_snap.specs.declared.fault.ReadError.TheVariants.{Memory};

    ghost from_gives = { λ _ error. error ≡ Memory };

    fn from(_refused: AllocFailed<T>) -> ReadError {
        ReadError::Memory
    }
}
