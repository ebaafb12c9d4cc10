//! The names in a summary that were asked for.

ghost use Rattle.std.specs.Prelude.{◌≡◌, ◌&&◌, ◌||◌, IfOk, List, OnOk, ℕ, bytes_eq, map, string_bytes};
ghost use Rattle.std.specs.List.{list_any};
ghost use Rattle.psy_draw.specs.Gathering.{asks_stream, asks_variable};
ghost use Rattle.psy_draw.specs.Listing.{Adds, Lists};
ghost use Rattle.psy_draw.specs.Lanes.{is_asked};

use crate::choice::is_asked;
use crate::names::Names;
use psy_base::Memory;
use psy_log::Note;
use std::alloc::Global;

/// The variables in the summary among these notes that were asked for.
pub fn asked_variables<'a>(
    alloc: Global,
    summary: &[Note<'a>],
    names: &[String],
) -> Result<Names<'a>, Memory>
    ensures { IfOk result (λ variables. Lists (asks_variable (map string_bytes names.now)) summary.now variables) }
{
    let mut variables = Names::new(alloc);
    for note in summary {
        add_variable(&mut variables, *note, names)?;
    }
    Ok(variables)
}

fn add_variable<'a>(
    variables: &mut Names<'a>,
    note: Note<'a>,
    names: &[String],
) -> Result<(), Memory>
    ensures { OnOk result (Adds (asks_variable (map string_bytes names.now)) note.entry variables.old variables.new) }
{
    match note {
        Note::VariableEnd { variable, .. } => add_asked(variables, variable, names),
        _ => Ok(()),
    }
}

/// The streams in the summary among these notes that were asked for.
pub fn asked_streams<'a>(
    alloc: Global,
    summary: &[Note<'a>],
    names: &[String],
) -> Result<Names<'a>, Memory>
    ensures { IfOk result (λ streams. Lists (asks_stream (map string_bytes names.now)) summary.now streams) }
{
    let mut streams = Names::new(alloc);
    for note in summary {
        add_stream(&mut streams, *note, names)?;
    }
    Ok(streams)
}

fn add_stream<'a>(streams: &mut Names<'a>, note: Note<'a>, names: &[String]) -> Result<(), Memory>
    ensures { OnOk result (Adds (asks_stream (map string_bytes names.now)) note.entry streams.old streams.new) }
{
    match note {
        Note::StreamEnd { stream, .. } => add_asked(streams, stream, names),
        _ => Ok(()),
    }
}

// Adds a name, where it was asked for.
fn add_asked<'a>(table: &mut Names<'a>, name: &'a [u8], names: &[String]) -> Result<(), Memory>
    ensures { OnOk result ((other : List ℕ) → list_any (bytes_eq other) table.new
        ≡ (list_any (bytes_eq other) table.old || (bytes_eq other name.now && is_asked (map string_bytes names.now) name.now))) }
{
    if is_asked(names, name) {
        table.add(name)
    } else {
        Ok(())
    }
}
