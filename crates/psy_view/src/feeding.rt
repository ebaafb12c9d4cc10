//! The inputs of a run.
ghost use Rattle.std.specs.Prelude.{◌≡◌, ◌≤◌, Some, IfOk, codes, length};
ghost use Rattle.psy_base.specs.declared.limits.TheConstants.{FILE_BYTES, LINES, WORD_BYTES};
ghost use Rattle.psy_log.specs.Forms.{limit_line, line_of as note_line, name_of, refused_line};
ghost use Rattle.psy_meaning.specs.Units.{IsOfText};
ghost use Rattle.psy_script.specs.Faults.{line_number};
ghost use Rattle.psy_view.specs.Pairing.{AreRead};
ghost use Rattle.psy_view.specs.Views.{IsTold};

use crate::told::told_of_refused;
use crate::view::View;
use psy_base::{Memory, limits};
use psy_history::Inputs;
use psy_log::{Line, Note};
use psy_script::{LineKind, TextFault, read_inputs};
use psy_tree::Unit;
use std::alloc::Global;

/// What came of a file of inputs: their lists, or what is told of it where psyc refuses it.
#[derive(Drop)]
pub enum Fed {
    Of(Inputs),
    Told(View),
}

/// The lists of the inputs of a program in a text, which stands in a file with this name. The only error is want of memory.
pub fn fed_of(alloc: Global, name: &str, fed: &[u8], unit: &Unit) -> Result<Fed, Memory>
    requires text { IsOfText unit.now }
    requires fed { length fed.now ≤ FILE_BYTES }
    ensures { IfOk result (λ came. AreRead unit.now name.now fed.now came) }
{
    match read_inputs(alloc, fed, unit) {
        Ok(inputs) => Ok(Fed::Of(inputs)),
        Err(TextFault::Line { kind, line }) => {
            Ok(Fed::Told(refused(alloc, name, fed, refused_at(kind, line))?))
        }
        Err(TextFault::Lines) => Ok(Fed::Told(refused(alloc, name, fed, too_many_lines())?)),
        Err(TextFault::Memory) => Err(Memory),
    }
}

// What is told of inputs that psyc refuses with the line of a note.
fn refused(alloc: Global, name: &str, fed: &[u8], note: Note) -> Result<View, Memory>
    requires fed { length fed.now ≤ FILE_BYTES }
    requires short { length (name_of note) ≤ WORD_BYTES }
    ensures status { IfOk result (λ v. v.status ≡ 1) }
    ensures told { IfOk result (λ v. IsTold name.now fed.now (note_line note.entry) v.text.items) }
{
    let mut line = Line::new();
    line.set(&note);
    told_of_refused(alloc, name, fed, line.bytes())
}

fn refused_at(kind: LineKind, line: u32) -> Note<'static>
    ensures line { note_line result ≡ refused_line (codes "inputs") (line_number kind) (Some line) }
    ensures short { length (name_of result) ≤ WORD_BYTES }
{
    Note::Refused {
        what: b"inputs",
        number: kind.number(),
        at: Some(line),
    }
}

fn too_many_lines() -> Note<'static>
    ensures line { note_line result ≡ limit_line (codes "lines") LINES }
    ensures short { length (name_of result) ≤ WORD_BYTES }
{
    Note::Limit {
        name: b"lines",
        number: limits::LINES as u64,
    }
}
