//! The walk for what must be known of a run before its values are drawn.
ghost use Rattle.psy_film.specs.Walks.{CountsOn};

use psy_draw::Outset;
use psy_log::Note;
use psy_passes::{Tell, TellFault};

/// Takes in notes for what must be known before their values are drawn, of a picture that begins at this date. It tells nothing.
#[derive(Drop)]
pub struct Counting<'a, 'n> {
    pub outset: Outset<'a>,
    pub names: &'n [String],
    pub from: u32,
}

impl<'a, 'n> Tell for Counting<'a, 'n> {
    ghost tells = { CountsOn };

    ghost refuses = { λ _ _. ⊥ };

    fn tell(&mut self, _text: &mut Vec<u8>, note: &Note<'_>) -> Result<(), TellFault> {
        self.outset.add(note, self.names, self.from);
        Ok(())
    }
}
