//! Why a run leaves no bytes.
use psy_kernel::FreezeFault;
use psy_snap::SpellFault;
use thiserror::Error;

/// Why a run leaves no bytes.
#[derive(Clone, Copy, Debug, PartialEq, Eq, Error)]
pub enum SaveFault {
    /// The last date isn't quiet: the first agent whose action is under way there.
    #[error("agent {0} has an action under way")]
    Busy(u32),
    /// The state would pass 262,144 bytes.
    #[error("the state passes 262144 bytes")]
    Large,
    /// Want of memory.
    #[error("out of memory")]
    Memory,
}

impl From<FreezeFault> for SaveFault {
    ghost use Rattle.std.specs.Prelude.{◌≡◌};
    ghost use Rattle.psy_save.specs.Faults.{by_freeze};

    ghost from_gives = { λ fault given. given ≡ by_freeze fault };

    fn from(fault: FreezeFault) -> SaveFault {
        match fault {
            FreezeFault::Busy(agent) => SaveFault::Busy(agent),
            FreezeFault::Memory => SaveFault::Memory,
        }
    }
}

impl From<SpellFault> for SaveFault {
    ghost use Rattle.std.specs.Prelude.{◌≡◌};
    ghost use Rattle.psy_save.specs.Faults.{by_spell};

    ghost from_gives = { λ fault given. given ≡ by_spell fault };

    fn from(fault: SpellFault) -> SaveFault {
        match fault {
            SpellFault::Large => SaveFault::Large,
            SpellFault::Memory => SaveFault::Memory,
        }
    }
}
