//! The first name that a summary doesn't list.
ghost use Rattle.std.specs.Prelude.{◌≡◌, None};
ghost use Rattle.psy_passes.specs.NameChecks.{Looks};

use crate::{Listed, Tell, TellFault};
use psy_log::Note;

/// Looks for the first note with a name that isn't listed, and tells nothing.
#[derive(Drop)]
pub struct NameCheck<'a, 'b> {
    pub listed: &'b Listed<'a>,
    /// How many notes there were.
    pub notes: usize,
    /// The number of that note, counted from 1.
    pub unlisted: Option<usize>,
}

impl<'a, 'b> NameCheck<'a, 'b> {
    /// There was no note yet.
    pub fn new(listed: &'b Listed<'a>) -> NameCheck<'a, 'b>
        ensures listed { result.listed.now ≡ listed.now }
        ensures notes { result.notes ≡ 0 }
        ensures unlisted { result.unlisted ≡ None }
    {
        NameCheck {
            listed,
            notes: 0,
            unlisted: None,
        }
    }
}

impl<'a, 'b> Tell for NameCheck<'a, 'b> {
    ghost tells = { Looks };

    ghost refuses = { λ _ _. ⊥ };

    fn tell(&mut self, _text: &mut Vec<u8>, note: &Note<'_>) -> Result<(), TellFault> {
        self.notes = self.notes.saturating_add(1);
        if self.unlisted.is_none() && !self.listed.has(note) {
            self.unlisted = Some(self.notes);
        }
        Ok(())
    }
}
