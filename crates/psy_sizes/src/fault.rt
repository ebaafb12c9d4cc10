//! Why no sizes are given.
ghost use Rattle.std.specs.Prelude.{◌≡◌};
ghost use Rattle.psy_sizes.specs.declared.fault.SizeFault.TheVariants.{Memory as no_memory};

use psy_base::Memory;
use thiserror::Error;

/// Why no sizes are given.
#[derive(Clone, Copy, Debug, PartialEq, Eq, Error)]
pub enum SizeFault {
    /// The ring of this variable would have more than 65,536 places.
    #[error("the ring of variable {0} passes 65,536 places")]
    LargeRing(u32),
    /// The queue of this stream can't be computed: the table of an agent that sends to it would have more than 4,000,000 cells.
    #[error("a table of stream {0} passes 4,000,000 cells")]
    Cells(u32),
    /// The queue of this stream would have more than 65,536 places.
    #[error("the queue of stream {0} passes 65,536 places")]
    LargeQueue(u32),
    /// Want of memory.
    #[error("out of memory")]
    Memory,
}

impl From<Memory> for SizeFault {
    ghost from_gives = { λ _ fault. fault ≡ no_memory };

    fn from(_memory: Memory) -> SizeFault {
        SizeFault::Memory
    }
}
