//! Why a text has no tokens.
ghost use Rattle.std.specs.Prelude.{◌≡◌};

use psy_base::Memory;
use psy_tree::LexKind;
use std::alloc::{AllocError, AllocFailed};
use thiserror::Error;

/// Why a text has no tokens.
#[derive(Debug, Drop, Error)]
pub enum LexFault {
    /// Its first fault: the kind, and how many bytes stand before it.
    #[error("the text is at fault behind {place} bytes")]
    Lexical { kind: LexKind, place: u32 },
    /// Want of memory.
    #[error("out of memory")]
    Memory,
}

impl From<Memory> for LexFault {
    ghost use Rattle.psy_token.specs.declared.fault.LexFault.TheVariants.{Memory};

    ghost from_gives = { λ _ fault. fault ≡ Memory };

    fn from(_memory: Memory) -> LexFault {
        LexFault::Memory
    }
}

impl From<AllocError> for LexFault {
    ghost use Rattle.psy_token.specs.declared.fault.LexFault.TheVariants.{Memory};

    ghost from_gives = { λ _ fault. fault ≡ Memory };

    fn from(_error: AllocError) -> LexFault {
        LexFault::Memory
    }
}
