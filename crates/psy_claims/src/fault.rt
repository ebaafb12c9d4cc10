//! Why a text isn't read as assertions.
ghost use Rattle.std.specs.Prelude.{◌≡◌};

use psy_base::Memory;
use std::alloc::{AllocError, AllocFailed};
use thiserror::Error;

/// What is wrong with a line.
#[derive(Clone, Copy, Debug, PartialEq, Eq, Error)]
pub enum Slip {
    /// It is no assertion.
    #[error("the line is no assertion")]
    Form,
    /// Its last date lies below its first.
    #[error("the last date lies below the first")]
    Dates,
    /// The log's summary doesn't list its name.
    #[error("the summary doesn't list the name")]
    Name,
}

/// Why a text isn't read as assertions.
#[derive(Clone, Copy, Debug, PartialEq, Eq, Error)]
pub enum ClaimFault {
    /// The first line, counted from 1, that is wrong.
    #[error("line {line}: {slip}")]
    Line { line: usize, slip: Slip },
    /// Want of memory.
    #[error("out of memory")]
    Memory,
}

impl From<Memory> for ClaimFault {
    ghost use Rattle.psy_claims.specs.declared.fault.ClaimFault.TheVariants.{Memory};

    ghost from_gives = { λ _ fault. fault ≡ Memory };

    fn from(_memory: Memory) -> ClaimFault {
        ClaimFault::Memory
    }
}

impl From<AllocError> for ClaimFault {
    ghost use Rattle.psy_claims.specs.declared.fault.ClaimFault.TheVariants.{Memory};

    ghost from_gives = { λ _ fault. fault ≡ Memory };

    fn from(_error: AllocError) -> ClaimFault {
        ClaimFault::Memory
    }
}

impl<T: Drop> From<AllocFailed<T>> for ClaimFault {
    ghost use Rattle.psy_claims.specs.declared.fault.ClaimFault.TheVariants.{Memory};

    ghost from_gives = { λ _ fault. fault ≡ Memory };

    fn from(_failed: AllocFailed<T>) -> ClaimFault {
        ClaimFault::Memory
    }
}
