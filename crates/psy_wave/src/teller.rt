//! Changes of a run whose notes come one by one.
ghost use Rattle.psy_wave.specs.Streams.{TellsChange};

use crate::change::add_change;
use crate::time::{add_stamp, later, time_of};
use psy_log::Note;
use psy_passes::{Listed, Tell, TellFault};

/// Tells what each note changes, with the time before the first change of each date.
#[derive(Drop)]
pub struct ChangeTeller<'a> {
    pub listed: Listed<'a>,
    /// The time that was told last.
    pub last: u64,
}

impl<'a> Tell for ChangeTeller<'a> {
    ghost tells = { TellsChange };

    ghost refuses = { λ _ _. ⊥ };

    fn tell(&mut self, text: &mut Vec<u8>, note: &Note<'_>) -> Result<(), TellFault> {
        let time = time_of(note);
        add_stamp(text, self.last, time)?;
        add_change(text, &self.listed, note)?;
        self.last = later(self.last, time);
        Ok(())
    }
}
