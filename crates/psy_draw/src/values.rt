//! The values that notes tell.

ghost use Rattle.std.specs.Prelude.{◌≡◌, ℕ, List};
ghost use Rattle.psy_draw.specs.Lanes.{messages_within, values_before, values_within};
ghost use Rattle.psy_draw.specs.Told.{said_of};

use crate::scale::Scale;
use psy_log::Note;

/// A value, and the date from which it holds.
#[derive(Clone, Copy, Debug)]
pub struct Told {
    pub date: u64,
    pub value: i32,
}

/// A name, and what is told of it.
#[derive(Clone, Copy, Debug)]
pub struct Said<'n> {
    pub name: &'n [u8],
    pub told: Told,
}

/// The value in a note, where its date isn't past this one.
pub fn value_before<'n>(note: &Note<'n>, from: u32) -> Option<Said<'n>>
    ensures { (name : List ℕ) → said_of name result ≡ values_before from name note.now }
{
    match *note {
        Note::Value {
            date,
            variable,
            value,
        } if date <= u64::from(from) => Some(Said {
            name: variable,
            told: Told { date, value },
        }),
        _ => None,
    }
}

/// The value in a note, where its date is behind the first one and not past the last.
pub fn value_within<'n>(note: &Note<'n>, scale: &Scale) -> Option<Said<'n>>
    ensures { (name : List ℕ) → said_of name result ≡ values_within scale.now.from scale.now.to name note.now }
{
    match *note {
        Note::Value {
            date,
            variable,
            value,
        } if u64::from(scale.from) < date && date <= u64::from(scale.to) => Some(Said {
            name: variable,
            told: Told { date, value },
        }),
        _ => None,
    }
}

/// The message in a note, where its date is in the window.
pub fn message_within<'n>(note: &Note<'n>, scale: &Scale) -> Option<Said<'n>>
    ensures { (name : List ℕ) → said_of name result ≡ messages_within scale.now.from scale.now.to name note.now }
{
    match *note {
        Note::Message {
            date,
            stream,
            value,
        } if u64::from(scale.from) <= date && date <= u64::from(scale.to) => Some(Said {
            name: stream,
            told: Told { date, value },
        }),
        _ => None,
    }
}
