//! The forms of the lines that psyc writes, text by text, and the note whose line stands at the front of a text.
ghost use Rattle.std.specs.Prelude.{◌≡◌, ◌≢◌, ℕ, List, ◌++◌, Contains, IfSome, None};
ghost use Rattle.psy_log.specs.declared.note.Note.{Note};
ghost use Rattle.psy_log.specs.Forms.{line_of, says};
ghost use Rattle.psy_notes.specs.Lines.{IsLineOf};
ghost use Rattle.psy_notes.specs.Notes.{IsTold};

use crate::filled::read_filled;
use crate::told::note_of;
use psy_log::{Form, Note};

/// The forms of the lines of a run.
pub const RUN: [Form; 8] = [
    Form::Value,
    Form::Message,
    Form::StopOverrun,
    Form::StopTrap,
    Form::End,
    Form::AgentEnd,
    Form::VariableEnd,
    Form::StreamEnd,
];

/// The forms of the lines of a graph.
pub const GRAPH: [Form; 3] = [Form::EdgeOf, Form::Node, Form::AgentGraph];

/// The forms of the lines of a check.
pub const CHECK: [Form; 5] = [
    Form::VariableSize,
    Form::StreamSize,
    Form::Rate,
    Form::Always,
    Form::Feasible,
];

/// The forms of the lines with which psyc refuses; a `refused image PLACE` is of the form `refused WHAT NUMBER` too, by which it is read.
pub const REFUSALS: [Form; 8] = [
    Form::Words,
    Form::Read,
    Form::Limit,
    Form::Refused,
    Form::RefusedAt,
    Form::Infeasible,
    Form::InfeasibleOn,
    Form::Busy,
];

/// The forms by which a line alone is read: those of a run, of a check, of a graph, of an audit and of a refusal. Left out are the first line of a graph,
/// since each line of that form is one of a run too, and `refused image PLACE`, since each is one of `refused WHAT NUMBER`, by which it is read.
pub const LINES: [Form; 24] = [
    Form::Value,
    Form::Message,
    Form::StopOverrun,
    Form::StopTrap,
    Form::End,
    Form::AgentEnd,
    Form::VariableEnd,
    Form::StreamEnd,
    Form::VariableSize,
    Form::StreamSize,
    Form::Rate,
    Form::Always,
    Form::Feasible,
    Form::EdgeOf,
    Form::Node,
    Form::Legal,
    Form::Words,
    Form::Read,
    Form::Limit,
    Form::Refused,
    Form::RefusedAt,
    Form::Infeasible,
    Form::InfeasibleOn,
    Form::Busy,
];

/// The note that a line says, its line feed included. None exactly where it says none.
pub fn read_line(line: &[u8]) -> Option<Note<'_>>
    ensures some { IfSome result (λ note. IsLineOf line.now note) }
    ensures none { result ≡ None → (note : Note) → IsLineOf line.now note → ⊥ }
{
    let (note, rest) = read_note(&LINES, line)?;
    if rest.is_empty() { Some(note) } else { None }
}

/// The note whose line, of one of these forms, stands at the front of a text, and what follows that line. None exactly where there is none.
pub fn read_note<'a>(forms: &[Form], text: &'a [u8]) -> Option<(Note<'a>, &'a [u8])>
    ensures some { IfSome result (λ r. IsTold r.0 × Contains forms.now (says r.0).0 × (text.now ≡ line_of r.0 ++ r.1.now)) }
    ensures none { result ≡ None → (note : Note) (more : List ℕ) → IsTold note → Contains forms.now (says note).0 → text.now ≢ line_of note ++ more }
{
    'forms: for form in forms {
        if let Some(told) = read_form(*form, text) {
            return Some(told);
        }
    }
    None
}

// The same for one form.
fn read_form(form: Form, text: &[u8]) -> Option<(Note<'_>, &[u8])>
    ensures some { IfSome result (λ r. IsTold r.0 × ((says r.0).0 ≡ form) × (text.now ≡ line_of r.0 ++ r.1.now)) }
    ensures none { result ≡ None → (note : Note) (more : List ℕ) → IsTold note → (says note).0 ≡ form → text.now ≢ line_of note ++ more }
{
    let filled = read_filled(form.fields(), text)?;
    Some((note_of(form, &filled.contents), filled.rest))
}
