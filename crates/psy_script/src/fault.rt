//! What is wrong with a line of inputs or of a script.
ghost use Rattle.std.specs.Prelude.{◌≡◌};
ghost use Rattle.psy_script.specs.Faults.{line_number};

use psy_base::Memory;
use std::alloc::{AllocError, AllocFailed};
use thiserror::Error;

/// What is wrong with a line of inputs or of a script. Of several the first is named.
#[derive(Clone, Copy, Debug, PartialEq, Eq)]
pub enum LineKind {
    /// It has no listed form.
    BadLine,
    /// It names no input, or no agent.
    NoSuchName,
    /// What it speaks of stood in an earlier line, or it names an agent or a processor twice.
    Again,
    /// A number isn't in its range.
    Range,
}

impl LineKind {
    /// The number of the kind, from 1 to 4, by which a refusal names it.
    pub fn number(self) -> u32
        ensures { result ≡ line_number self }
    {
        match self {
            LineKind::BadLine => 1,
            LineKind::NoSuchName => 2,
            LineKind::Again => 3,
            LineKind::Range => 4,
        }
    }
}

/// Why a text states no inputs or no script.
#[derive(Debug, Drop, Error)]
pub enum TextFault {
    /// The first line that is at fault, counted from 1.
    #[error("line {line} is at fault")]
    Line { kind: LineKind, line: u32 },
    /// It has more than 10,000 lines.
    #[error("more than 10,000 lines")]
    Lines,
    /// Want of memory.
    #[error("out of memory")]
    Memory,
}

impl From<Memory> for TextFault {
    ghost use Rattle.psy_script.specs.declared.fault.TextFault.TheVariants.{Memory};

    ghost from_gives = { λ _ fault. fault ≡ Memory };

    fn from(_memory: Memory) -> TextFault {
        TextFault::Memory
    }
}

impl From<AllocError> for TextFault {
    ghost use Rattle.psy_script.specs.declared.fault.TextFault.TheVariants.{Memory};

    ghost from_gives = { λ _ fault. fault ≡ Memory };

    fn from(_error: AllocError) -> TextFault {
        TextFault::Memory
    }
}

impl<T: Drop> From<AllocFailed<T>> for TextFault {
    ghost use Rattle.psy_script.specs.declared.fault.TextFault.TheVariants.{Memory};

    ghost from_gives = { λ _ fault. fault ≡ Memory };

    fn from(_failed: AllocFailed<T>) -> TextFault {
        TextFault::Memory
    }
}
