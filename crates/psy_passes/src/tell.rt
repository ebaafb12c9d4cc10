//! What is told of notes, one by one.
ghost use Rattle.std.specs.Prelude.{◌≡◌, ℕ, List, ◌++◌, OnOk};
ghost use Rattle.psy_log.specs.declared.note.Note.{Note as Said};

use psy_log::Note;
use std::alloc::AllocError;
use thiserror::Error;

/// Why nothing is told of a note.
#[derive(Clone, Copy, Debug, PartialEq, Eq, Error)]
pub enum TellFault {
    /// The note is none of which something is told.
    #[error("nothing is told of this note")]
    Refused,
    #[error("out of memory")]
    Memory,
}

impl From<AllocError> for TellFault {
    ghost use Rattle.std.specs.Prelude.{◌≡◌};
    ghost use Rattle.psy_passes.specs.declared.tell.TellFault.{TellFault};

    ghost from_gives = { λ _ fault. fault ≡ TellFault.Memory };

    fn from(_error: AllocError) -> TellFault {
        TellFault::Memory
    }
}

/// What is told of notes, one by one.
pub trait Tell {
    // of this note it tells that text, and becomes the other
    ghost tells: { Self → Said → List ℕ → Self → Type 0 };

    // of this note it tells nothing
    ghost refuses: { Self → Said → Type 0 };

    /// Adds what it tells of a note.
    fn tell(&mut self, text: &mut Vec<u8>, note: &Note<'_>) -> Result<(), TellFault>
        ensures told { OnOk result ((piece : List ℕ) × tells self.old note.now piece self.new × (text.new.items ≡ text.old.items ++ piece)) }
        ensures refused { result ≡ Err TellFault.Refused → refuses self.old note.now };
}
