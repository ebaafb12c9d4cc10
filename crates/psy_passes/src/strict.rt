//! Notes with other names than those listed are refused.
ghost use Rattle.psy_passes.specs.NameChecks.{RefusesOther, TellsListed};

use crate::{Listed, Tell, TellFault};
use psy_log::Note;

/// Tells what another tells, and refuses notes with a name that isn't listed.
#[derive(Drop)]
pub struct Strict<'a, T> {
    pub listed: Listed<'a>,
    pub inner: T,
}

impl<'a, T: Tell> Tell for Strict<'a, T> {
    ghost tells = { TellsListed T.tells };

    ghost refuses = { RefusesOther T.refuses };

    fn tell(&mut self, text: &mut Vec<u8>, note: &Note<'_>) -> Result<(), TellFault> {
        if !self.listed.has(note) {
            return Err(TellFault::Refused);
        }
        self.inner.tell(text, note)
    }
}
