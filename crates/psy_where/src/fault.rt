//! Why a refusal isn't explained.
use psy_base::Memory;
use psy_token::LexFault;
use std::alloc::AllocError;
use thiserror::Error;

/// Why a refusal isn't explained.
#[derive(Clone, Copy, Debug, PartialEq, Eq, Error)]
pub enum WhereFault {
    /// The line is no refusal that psyc writes of a text.
    #[error("this is no refusal of a text")]
    NoRefusal,
    /// The text has no such byte, token or line.
    #[error("the text has no such place")]
    Beyond,
    /// Want of memory.
    #[error("out of memory")]
    Memory,
}

impl From<AllocError> for WhereFault {
    ghost use Rattle.std.specs.Prelude.{◌≡◌};
    ghost use Rattle.psy_where.specs.declared.fault.WhereFault.{WhereFault};

    ghost from_gives = { λ _ fault. fault ≡ WhereFault.Memory };

    fn from(_error: AllocError) -> WhereFault {
        WhereFault::Memory
    }
}

impl From<Memory> for WhereFault {
    ghost use Rattle.std.specs.Prelude.{◌≡◌};
    ghost use Rattle.psy_where.specs.declared.fault.WhereFault.{WhereFault};

    ghost from_gives = { λ _ fault. fault ≡ WhereFault.Memory };

    fn from(_memory: Memory) -> WhereFault {
        WhereFault::Memory
    }
}

impl From<LexFault> for WhereFault {
    ghost use Rattle.std.specs.Prelude.{◌≡◌};
    ghost use Rattle.psy_token.specs.declared.fault.LexFault.{LexFault};
    ghost use Rattle.psy_token.specs.declared.fault.LexFault.TheVariants.{Lexical, Memory};
    ghost use Rattle.psy_where.specs.declared.fault.WhereFault.{WhereFault};
    ghost use Rattle.psy_where.specs.Lexing.{fault_of};

    ghost from_gives = { λ fault answer. answer ≡ fault_of fault };

    fn from(fault: LexFault) -> WhereFault {
        match fault {
            LexFault::Lexical { .. } => WhereFault::Beyond,
            LexFault::Memory => WhereFault::Memory,
        }
    }
}
