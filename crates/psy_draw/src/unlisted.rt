//! The names that the summary doesn't list.

ghost use Rattle.std.specs.Prelude.{◌≡◌, map, string_bytes};
ghost use Rattle.psy_draw.specs.Listing.{first_failing, first_outside};
ghost use Rattle.psy_draw.specs.Tables.{is_among, has_name};

use crate::listed::Listed;
use psy_log::Note;

/// The number, counted from 1, of the first note with a name that isn't listed.
pub fn first_unlisted(notes: &[Note], listed: &Listed) -> Option<usize>
    ensures { result ≡ first_failing (is_among listed.now) notes.now }
{
    for (index, note) in notes.iter().enumerate() {
        if !is_among(note, listed) {
            return Some(index + 1);
        }
    }
    None
}

/// The place, counted from 0, of the first name that isn't listed.
pub fn first_unknown(names: &[String], listed: &Listed) -> Option<usize>
    ensures { result ≡ first_outside (has_name listed.now) (map string_bytes names.now) }
{
    for (place, name) in names.iter().enumerate() {
        if !is_named(listed, name) {
            return Some(place);
        }
    }
    None
}

// The name of a dated note is among those of its kind.
fn is_among(note: &Note, listed: &Listed) -> bool
    ensures { result ≡ is_among listed.now note.now }
{
    match *note {
        Note::StopOverrun { agent, .. } | Note::StopTrap { agent, .. } => listed.agents.has(agent),
        Note::Value { variable, .. } => listed.variables.has(variable),
        Note::Message { stream, .. } => listed.streams.has(stream),
        _ => true,
    }
}

fn is_named(listed: &Listed, name: &String) -> bool
    ensures { result ≡ has_name listed.now (string_bytes name.now) }
{
    has_name(listed, name.as_bytes())
}

fn has_name(listed: &Listed, name: &[u8]) -> bool
    ensures { result ≡ has_name listed.now name.now }
{
    listed.agents.has(name) || listed.variables.has(name) || listed.streams.has(name)
}
