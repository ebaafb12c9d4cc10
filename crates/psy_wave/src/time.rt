//! The times of changes.
ghost use Rattle.std.specs.Prelude.{◌≡◌, ◌++◌, Some, OnOk};
ghost use Rattle.psy_wave.specs.Changes.{later, stamp, time_of};

use psy_log::Note;
use psy_text::write::add_number;
use std::alloc::AllocError;

/// The date of a dated note, or of the end.
pub fn time_of(note: &Note) -> Option<u64>
    ensures { result ≡ time_of note.now }
{
    match *note {
        Note::StopOverrun { date, .. }
        | Note::StopTrap { date, .. }
        | Note::Value { date, .. }
        | Note::Message { date, .. } => Some(date),
        Note::End { until } => Some(until),
        _ => None,
    }
}

/// Adds a time, where there is one and it isn't the last one.
pub fn add_stamp(out: &mut Vec<u8>, last: u64, time: Option<u64>) -> Result<(), AllocError>
    ensures { OnOk result (out.new.items ≡ out.old.items ++ stamp last time) }
{
    match time {
        Some(time) => add_time(out, last, time),
        None => Ok(()),
    }
}

// Adds a time, where it isn't the last one.
fn add_time(out: &mut Vec<u8>, last: u64, time: u64) -> Result<(), AllocError>
    ensures { OnOk result (out.new.items ≡ out.old.items ++ stamp last (Some time)) }
{
    if time == last {
        return Ok(());
    }
    out.push(b'#')?;
    add_number(out, time)?;
    out.push(b'\n')?;
    Ok(())
}

/// The last time behind a note.
pub fn later(last: u64, time: Option<u64>) -> u64
    ensures { result ≡ later last time }
{
    match time {
        Some(time) => time,
        None => last,
    }
}
