//! The dates of notes.

ghost use Rattle.std.specs.Prelude.{◌≡◌};
ghost use Rattle.psy_draw.specs.Dates.{date_of, last_date};

use psy_log::Note;

/// The last date of a run: the greatest that a note names.
pub fn last_date(notes: &[Note]) -> u64
    ensures { result ≡ last_date notes.now }
{
    let mut last = 0;
    for note in notes {
        last = date_of(note).max(last);
    }
    last
}

/// The date of a note, and 0 where it has none.
pub fn date_of(note: &Note) -> u64
    ensures { result ≡ date_of note.now }
{
    match *note {
        Note::StopOverrun { date, .. }
        | Note::StopTrap { date, .. }
        | Note::Value { date, .. }
        | Note::Message { date, .. } => date,
        Note::End { until } => until,
        _ => 0,
    }
}
