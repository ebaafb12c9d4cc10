//! Why a text isn't read as notes.
use std::alloc::AllocFailed;
use thiserror::Error;

/// Why a text isn't read as notes.
#[derive(Debug, Drop, Error)]
pub enum TextFault {
    /// The first line that isn't in form, counted from 1; one more than there are lines where the text ends too early.
    #[error("line {line} isn't in form")]
    Line { line: usize },
    /// Want of memory.
    #[error("out of memory")]
    Memory,
}

impl<T: Drop> From<AllocFailed<T>> for TextFault {
    ghost use Rattle.std.specs.Prelude.{◌≡◌};
    ghost use Rattle.psy_notes.specs.declared.fault.TextFault.TheVariants.{Memory};

    ghost from_gives = { λ _ fault. fault ≡ Memory };

    fn from(_failed: AllocFailed<T>) -> TextFault {
        TextFault::Memory
    }
}
