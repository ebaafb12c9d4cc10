//! Why there is no trace.
ghost use Rattle.std.specs.Prelude.{◌≡◌};

use psy_base::Memory;
use thiserror::Error;

/// Why there is no trace.
#[derive(Clone, Copy, Debug, PartialEq, Eq, Error)]
pub enum CollectFault {
    /// The trace would pass 262,144 bytes.
    #[error("the trace passes 262144 bytes")]
    Large,
    /// Want of memory.
    #[error("out of memory")]
    Memory,
}

impl From<Memory> for CollectFault {
    ghost use Rattle.psy_collect.specs.declared.fault.CollectFault.TheVariants.{Memory};

    ghost from_gives = { λ _ fault. fault ≡ Memory };

    fn from(_memory: Memory) -> CollectFault {
        CollectFault::Memory
    }
}
