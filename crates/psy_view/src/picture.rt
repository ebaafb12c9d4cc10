//! Pictures of runs.
ghost use Rattle.std.specs.Prelude.{IfOk, map, string_bytes};
ghost use Rattle.psy_draw.specs.Knowledge.{knowledge_of};
ghost use Rattle.psy_view.specs.Reading.{names_in};
ghost use Rattle.psy_view.specs.Views.{IsDrawn, IsShown};

use crate::asked::Selection;
use crate::refusals::{broken_text, empty_line, unknown_line};
use crate::view::View;
use psy_base::Memory;
use psy_draw::{DrawFault, Known, timeline};
use psy_export::unlisted_line;
use psy_log::Note;
use psy_notes::{TextFault, read_run};
use std::alloc::Global;

/// The picture of what is selected of the run in a text.
#[tactic(auto, using(crate::specs::Views::of_notes, crate::specs::Views::no_run))]
pub fn drawn(alloc: Global, name: &str, selection: Selection, bytes: &[u8]) -> Result<View, Memory>
    ensures { IfOk result (λ v. IsDrawn name.now selection.entry.window (names_in selection.entry) bytes.now v.status v.text.items) }
{
    match read_run(alloc, bytes) {
        Ok(notes) => shown(alloc, name, selection, notes.as_slice(), Known::NOTHING),
        Err(TextFault::Line { line }) => Ok(View {
            status: 1,
            text: broken_text(alloc, name.as_bytes(), line, b"run", bytes)?,
        }),
        Err(TextFault::Memory) => Err(Memory),
    }
}

/// The picture of what is selected of a run with these notes, of which this is known.
#[tactic(auto, using(crate::specs::Views::drawn))]
pub fn shown(
    alloc: Global,
    name: &str,
    selection: Selection,
    notes: &[Note],
    known: Known,
) -> Result<View, Memory>
    ensures { IfOk result (λ v. IsShown name.now selection.entry.window (knowledge_of known.entry) (names_in selection.entry) notes.now
        v.status v.text.items) }
{
    let Selection { window, names } = selection;
    match timeline(alloc, name, notes, window, names, known) {
        Ok(svg) => Ok(View {
            status: 0,
            text: svg,
        }),
        Err(DrawFault::Unlisted { number }) => Ok(View {
            status: 1,
            text: unlisted_line(alloc, name.as_bytes(), number)?,
        }),
        Err(DrawFault::Unknown { place }) => Ok(View {
            status: 1,
            text: unknown_line(alloc, name.as_bytes(), names[place].as_bytes())?,
        }),
        Err(DrawFault::Empty) => Ok(View {
            status: 1,
            text: empty_line(alloc, name.as_bytes(), window)?,
        }),
        Err(DrawFault::Memory) => Err(Memory),
    }
}
