//! Why nothing is told of a run, or not all.
ghost use Rattle.std.specs.Prelude.{◌≡◌};

use psy_base::Memory;
use thiserror::Error;

/// Why nothing is told of a run, or not all.
#[derive(Clone, Copy, Debug, PartialEq, Eq, Error)]
pub enum PassFault {
    /// The first line that isn't in form, counted from 1; one more than there are lines where the text ends too early.
    #[error("line {line} isn't in form")]
    Line { line: usize },
    /// The first line, counted from 1, with a name that the summary doesn't list.
    #[error("the name in line {line} isn't in the summary")]
    Unlisted { line: usize },
    /// There are more lines than may be.
    #[error("there are too many lines")]
    Many,
    /// The file can't be read.
    #[error("the file can't be read")]
    Unread,
    /// The file isn't what it was when it was read before.
    #[error("the file changed")]
    Changed,
    /// What is told can't be written.
    #[error("the text can't be written")]
    Unwritten,
    #[error("out of memory")]
    Memory,
}

impl From<Memory> for PassFault {
    ghost use Rattle.psy_passes.specs.declared.fault.PassFault.TheVariants.{Memory};

    ghost from_gives = { λ _ fault. fault ≡ Memory };

    fn from(_memory: Memory) -> PassFault {
        PassFault::Memory
    }
}
