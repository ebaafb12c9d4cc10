//! Why tokens have no tree.
ghost use Rattle.std.specs.Prelude.{◌≡◌};
ghost use Rattle.psy_parse.specs.declared.fault.Failure.TheVariants.{Memory as no_memory};

use psy_base::Memory;
use std::alloc::{AllocError, AllocFailed};
use thiserror::Error;

/// Why tokens have no tree.
#[derive(Debug, Drop, Error)]
pub enum ParseFault {
    /// The number of the token at fault, counted from 0: the first that no program has behind the
    /// tokens before it, or the number of the tokens where a program may begin with all of them.
    #[error("no program at token {0}")]
    Syntax(u32),
    /// The number of the first token at which the text is nested too deep, counted from 0.
    #[error("nested too deep at token {0}")]
    Deep(u32),
    #[error("out of memory")]
    Memory,
}

/// Why a part of the text was not read.
#[derive(Debug, Drop)]
pub enum Failure {
    Memory,
    /// So many tokens are left where reading can't go on.
    Stuck(usize),
}

impl From<Memory> for Failure {
    ghost from_gives = { λ _ e. e ≡ no_memory };

    fn from(_error: Memory) -> Failure {
        Failure::Memory
    }
}

impl From<AllocError> for Failure {
    ghost from_gives = { λ _ e. e ≡ no_memory };

    fn from(_error: AllocError) -> Failure {
        Failure::Memory
    }
}

impl<T: Drop> From<AllocFailed<T>> for Failure {
    ghost from_gives = { λ _ e. e ≡ no_memory };

    fn from(_refused: AllocFailed<T>) -> Failure {
        Failure::Memory
    }
}
