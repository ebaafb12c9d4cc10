//! Why two texts aren't compared.
ghost use Rattle.std.specs.Prelude.{◌≡◌};

use std::alloc::AllocError;
use thiserror::Error;

/// Why two texts aren't compared.
#[derive(Clone, Copy, Debug, PartialEq, Eq, Error)]
pub enum DiffFault {
    /// The line of the first text, counted from 1, that is the first that isn't in form; one more than there are lines where the text ends too early.
    #[error("line {line} of the first text isn't in form")]
    First { line: usize },
    /// The same of the second text, where the first is a log.
    #[error("line {line} of the second text isn't in form")]
    Second { line: usize },
    /// Want of memory.
    #[error("out of memory")]
    Memory,
}

impl From<AllocError> for DiffFault {
    ghost use Rattle.psy_differ.specs.declared.fault.DiffFault.TheVariants.{Memory};

    ghost from_gives = { λ _ fault. fault ≡ Memory };

    fn from(_error: AllocError) -> DiffFault {
        DiffFault::Memory
    }
}
