//! The walk for whether a run is of its program.
ghost use Rattle.psy_film.specs.Walks.{MatchesOn};

use crate::own::Own;
use psy_log::Note;
use psy_passes::{Tell, TellFault};

/// Takes in notes for whether they are of a program. It tells nothing.
#[derive(Drop)]
pub struct Matching<'s> {
    pub own: Own<'s>,
}

impl<'s> Tell for Matching<'s> {
    ghost tells = { MatchesOn };

    ghost refuses = { λ _ _. ⊥ };

    fn tell(&mut self, _text: &mut Vec<u8>, note: &Note<'_>) -> Result<(), TellFault> {
        self.own.add(note);
        Ok(())
    }
}
