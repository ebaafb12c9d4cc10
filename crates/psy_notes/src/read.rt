//! Texts as notes.
ghost use Rattle.std.specs.Prelude.{◌≡◌, ◌≢◌, ℕ, ◌<◌, List, ◌++◌, length, None, IfOk, IfSome};
ghost use Rattle.psy_log.specs.declared.note.Note.{Note};
ghost use Rattle.psy_log.specs.Forms.{line_of};
ghost use Rattle.psy_notes.specs.declared.stand.Stand.{Stand};
ghost use Rattle.psy_notes.specs.declared.fault.TextFault.{TextFault};
ghost use Rattle.psy_notes.specs.Stands.{run_begins, graph_begins};
ghost use Rattle.psy_notes.specs.Texts.{IsText, BreaksAt, Steps};
ghost use Rattle.psy_notes.specs.Reading.{forms_at};

use crate::fault::TextFault;
use crate::forms::{GRAPH, RUN, read_note};
use crate::stand::Stand;
use psy_log::{Form, Note};
use std::alloc::Global;

/// The notes whose lines `psyc run` wrote, from date 0 to the end of its summary; or the first line that isn't in form.
pub fn read_run<'a>(alloc: Global, text: &'a [u8]) -> Result<Vec<Note<'a>>, TextFault>
    ensures notes { IfOk result (λ notes. IsText run_begins text.now notes.items) }
    ensures line { (line : ℕ) → result ≡ Err (TextFault.Line line) → BreaksAt run_begins text.now line }
{
    read(alloc, text, Stand::RUN)
}

/// The notes whose lines `psyc graph` wrote; or the first line that isn't in form.
pub fn read_graph<'a>(alloc: Global, text: &'a [u8]) -> Result<Vec<Note<'a>>, TextFault>
    ensures notes { IfOk result (λ notes. IsText graph_begins text.now notes.items) }
    ensures line { (line : ℕ) → result ≡ Err (TextFault.Line line) → BreaksAt graph_begins text.now line }
{
    read(alloc, text, Stand::GRAPH)
}

/// A note, and the text behind its line.
#[derive(Drop)]
pub(crate) struct Step<'a> {
    pub note: Note<'a>,
    pub stand: Stand,
    pub rest: &'a [u8],
}

// The notes whose lines a text is from this stand on.
fn read<'a>(alloc: Global, text: &'a [u8], first: Stand) -> Result<Vec<Note<'a>>, TextFault>
    ensures notes { IfOk result (λ notes. IsText first text.now notes.items) }
    ensures line { (line : ℕ) → result ≡ Err (TextFault.Line line) → BreaksAt first text.now line }
{
    let mut notes = Vec::new(alloc);
    let mut stand = first;
    let mut rest = text;
    'reading: while !rest.is_empty() {
        let Some(step) = first_step(stand, rest) else {
            return Err(TextFault::Line {
                line: notes.len() + 1,
            });
        };
        notes.push(step.note)?;
        stand = step.stand;
        rest = step.rest;
    }
    if !stand.may_end() {
        return Err(TextFault::Line {
            line: notes.len() + 1,
        });
    }
    Ok(notes)
}

/// The note whose line stands at the front of a text and may stand there.
pub(crate) fn first_step(stand: Stand, text: &[u8]) -> Option<Step<'_>>
    ensures some { IfSome result (λ step. Steps stand step.note step.stand × (text.now ≡ line_of step.note ++ step.rest.now)) }
    ensures shorter { IfSome result (λ step. length step.rest.now < length text.now) }
    ensures none { result ≡ None → (note : Note) (to : Stand) (more : List ℕ) → Steps stand note to → text.now ≢ line_of note ++ more }
{
    let (note, rest) = read_note(forms_at(stand), text)?;
    let stand = stand.next(&note)?;
    Some(Step { note, stand, rest })
}

// The forms of the lines that are read at this stand.
fn forms_at(stand: Stand) -> &'static [Form]
    ensures { result.now ≡ forms_at stand }
{
    match stand {
        Stand::Dated { .. }
        | Stand::Agents { .. }
        | Stand::Variables { .. }
        | Stand::Streams { .. } => &RUN,
        Stand::Graphs { .. } => &GRAPH,
    }
}
