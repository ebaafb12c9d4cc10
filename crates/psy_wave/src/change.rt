//! What a note changes.
ghost use Rattle.std.specs.Prelude.{◌≡◌, ◌++◌, OnOk};
ghost use Rattle.psy_wave.specs.Changes.{change, message, raised, value_change};

use crate::line::{add_value, add_vector};
use psy_log::Note;
use psy_passes::Listed;
use std::alloc::AllocError;

/// Adds what a note changes.
pub fn add_change(out: &mut Vec<u8>, listed: &Listed, note: &Note) -> Result<(), AllocError>
    ensures { OnOk result (out.new.items ≡ out.old.items ++ change listed.now.variables listed.now.streams listed.now.agents note.now) }
{
    match *note {
        Note::Value {
            variable,
            value,
            ..
        } => add_new_value(out, listed.variables.place(variable), value),
        Note::Message { stream, value, .. } => add_message(
            out,
            listed.streams.place(stream),
            value,
        ),
        Note::StopOverrun { agent, .. } | Note::StopTrap { agent, .. } => {
            add_raised(out, listed.agents.place(agent))
        }
        _ => Ok(()),
    }
}

// Adds a variable's new value.
fn add_new_value(out: &mut Vec<u8>, place: Option<usize>, value: i32) -> Result<(), AllocError>
    ensures { OnOk result (out.new.items ≡ out.old.items ++ value_change place value) }
{
    match place {
        Some(place) => add_vector(out, value, b'v', place),
        None => Ok(()),
    }
}

// Adds a message: its event, and its value.
fn add_message(out: &mut Vec<u8>, place: Option<usize>, value: i32) -> Result<(), AllocError>
    ensures { OnOk result (out.new.items ≡ out.old.items ++ message place value) }
{
    match place {
        Some(place) => {
            add_value(out, b"1", b'e', place)?;
            add_vector(out, value, b'm', place)
        }
        None => Ok(()),
    }
}

// Adds that a wire is raised.
fn add_raised(out: &mut Vec<u8>, place: Option<usize>) -> Result<(), AllocError>
    ensures { OnOk result (out.new.items ≡ out.old.items ++ raised place) }
{
    match place {
        Some(place) => add_value(out, b"1", b's', place),
        None => Ok(()),
    }
}
