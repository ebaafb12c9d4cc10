//! Why a run can't be saved.
use psy_base::Memory;
use thiserror::Error;

/// Why a run can't be saved: the first agent whose action is under way, or want of memory.
#[derive(Debug, Drop, Error)]
pub enum FreezeFault {
    #[error("the action of agent {0} is under way")]
    Busy(u32),
    #[error("out of memory")]
    Memory,
}

impl From<Memory> for FreezeFault {
    ghost use Rattle.std.specs.Prelude.{◌≡◌};
    ghost use Rattle.psy_kernel.specs.declared.fault.FreezeFault.TheVariants.{Memory};

    ghost from_gives = { λ _ e. e ≡ Memory };

    fn from(_memory: Memory) -> FreezeFault {
        FreezeFault::Memory
    }
}
