//! Why no picture is drawn.
ghost use Rattle.std.specs.Prelude.{◌≡◌};

use psy_base::Memory;
use thiserror::Error;

/// Why no picture is drawn.
#[derive(Clone, Copy, Debug, PartialEq, Eq, Error)]
pub enum DrawFault {
    /// The name in the note of this number, counted from 1, is in no line of the summary.
    #[error("the name in line {number} isn't in the summary")]
    Unlisted { number: usize },
    /// The name of this place, counted from 0, among those that were asked for is in no line of the summary.
    #[error("the name {place} that was asked for isn't in the summary")]
    Unknown { place: usize },
    /// No date of the run lies in the window.
    #[error("no date of the run lies in the window")]
    Empty,
    /// Want of memory.
    #[error("out of memory")]
    Memory,
}

impl From<Memory> for DrawFault {
    ghost use Rattle.psy_draw.specs.declared.fault.DrawFault.TheVariants.{Memory};

    ghost from_gives = { λ _ fault. fault ≡ Memory };

    fn from(_memory: Memory) -> DrawFault {
        DrawFault::Memory
    }
}
