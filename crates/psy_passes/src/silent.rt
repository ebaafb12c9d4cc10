//! Nothing is told of notes.
ghost use Rattle.std.specs.Prelude.{◌≡◌, [], ⊤};

use crate::{Tell, TellFault};
use psy_log::Note;

/// Tells nothing of any note.
#[derive(Drop)]
pub struct Silent;

impl Tell for Silent {
    ghost tells = { λ _ _ piece _. piece ≡ [] };

    ghost refuses = { λ _ _. ⊥ };

    fn tell(&mut self, _text: &mut Vec<u8>, _note: &Note<'_>) -> Result<(), TellFault> {
        Ok(())
    }
}
