//! The walk that fills the lanes.
ghost use Rattle.psy_film.specs.Walks.{GathersOn};

use psy_base::Memory;
use psy_draw::{Gathering, Outset, Stops};
use psy_log::Note;
use psy_match::Silencing;
use psy_passes::{Tell, TellFault};

/// Takes in notes for the lanes of a picture and for when variables fall silent, and once more for what was known of them before. It tells nothing.
#[derive(Drop)]
pub struct Gatherer<'a, 's> {
    pub again: Outset<'a>,
    pub gathering: Gathering<'a>,
    pub by: Stops<'a, 's>,
    pub from: u32,
    pub silencing: Silencing<'s>,
}

impl<'a, 's> Tell for Gatherer<'a, 's> {
    ghost tells = { GathersOn };

    ghost refuses = { λ _ _. ⊥ };

    fn tell(&mut self, _text: &mut Vec<u8>, note: &Note<'_>) -> Result<(), TellFault> {
        self.again.add(note, self.by.names, self.from);
        self.silencing.add(note);
        match self.gathering.add(self.by, note) {
            Ok(()) => Ok(()),
            Err(Memory) => Err(TellFault::Memory),
        }
    }
}
