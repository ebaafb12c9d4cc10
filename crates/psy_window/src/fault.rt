//! Why no weights are given.
ghost use Rattle.std.specs.Prelude.{◌≡◌};
ghost use Rattle.psy_window.specs.declared.fault.WindowFault.TheVariants.{Memory as no_memory};

use psy_base::Memory;
use thiserror::Error;

/// Why no weights are given.
#[derive(Clone, Copy, Debug, PartialEq, Eq, Error)]
pub enum WindowFault {
    /// The table would pass 4,000,000 cells.
    #[error("the table passes 4,000,000 cells")]
    Cells,
    /// Want of memory.
    #[error("out of memory")]
    Memory,
}

impl From<Memory> for WindowFault {
    ghost from_gives = { λ _ fault. fault ≡ no_memory };

    fn from(_memory: Memory) -> WindowFault {
        WindowFault::Memory
    }
}
