//! The run in a file of any length in another form.
ghost use Rattle.std.specs.Prelude.{◌≡◌, ◌≢◌, ◌≤◌, ℕ, List, None, IfErr, IfOk, OnOk};
ghost use Rattle.psy_door.specs.Faults.{Rose};
ghost use Rattle.psy_door.specs.Growth.{Grew, GrewByFront};
ghost use Rattle.psy_log.specs.declared.note.Note.{Note};
ghost use Rattle.psy_notes.specs.Texts.{text_of};
ghost use Rattle.psy_passes.specs.Logs.{IsLog};
ghost use Rattle.psy_passes.specs.Runs.{IsRun, tail_of};
ghost use Rattle.psy_passes.specs.Outcomes.{IsOfTelling};
ghost use Rattle.psy_export.specs.Ending.{Ends, IsSaidOf, Refuses, status_of};
ghost use Rattle.psy_export.specs.Exports.{IsExportFront, export_of};

use crate::forms::Format;
use crate::refusals::{broken_line, many_line, unlisted_line, unread_line};
use crate::saying::{Said, say};
use psy_base::Memory;
use psy_door::Sink;
use psy_passes::{PassFault, survey};
use psy_reel::Reel;
use psy_table::write_csv;
use psy_wave::write_vcd;
use std::alloc::Global;

/// Writes the run in the file with this name in a format, or the line that says why it is none, and answers the status: 0 where the whole was written,
/// 1 where the file holds no log, 3 where it can't be read, 4 where a write failed, 8 where memory ran out. The file is read three times, piece by
/// piece: its lines, its names, and what is written of them.
pub fn export<R: Reel, S: Sink>(
    alloc: Global,
    format: Format,
    reel: &mut R,
    name: &str,
    out: &mut S,
) -> u8
    ensures ends { Ends (R.files reel.old) name.now format (R.faults reel.old) (R.faults reel.new) (S.faults out.old) (S.faults out.new)
        (S.held out.old) (S.held out.new) result }
    ensures reel { (R.faults reel.old ≤ R.faults reel.new) × (R.files reel.new ≡ R.files reel.old) }
    ensures sink { S.faults out.old ≤ S.faults out.new }
{
    let tail = match survey(alloc, reel, name) {
        Ok(tail) => tail,
        Err(fault) => return refuse(alloc, name, fault, out),
    };
    match write_long(alloc, format, reel, name, tail.as_slice(), out) {
        Ok(()) => 0,
        Err(fault) => status_of(fault),
    }
}

// Writes why a file isn't exported, and answers the status.
fn refuse<S: Sink>(alloc: Global, name: &str, fault: PassFault, out: &mut S) -> u8
    requires { fault ≢ PassFault.Unwritten }
    ensures said { Refuses name.now fault (S.faults out.old) (S.faults out.new) (S.held out.old) (S.held out.new) result }
    ensures sink { S.faults out.old ≤ S.faults out.new }
{
    match refusal(alloc, name, fault) {
        Ok(said) => say(said.text.as_slice(), said.status, out),
        Err(Memory) => 8,
    }
}

/// Why a long file isn't exported, or not drawn. The only error is want of memory.
pub fn refusal(alloc: Global, name: &str, fault: PassFault) -> Result<Said, Memory>
    requires { fault ≢ PassFault.Unwritten }
    ensures { IfOk result (λ said. IsSaidOf name.now fault said.status said.text.items) }
{
    match fault {
        PassFault::Line { line } => Ok(Said {
            status: 1,
            text: broken_line(alloc, name.as_bytes(), line)?,
        }),
        PassFault::Unlisted { line } => Ok(Said {
            status: 1,
            text: unlisted_line(alloc, name.as_bytes(), line)?,
        }),
        PassFault::Many => Ok(Said {
            status: 1,
            text: many_line(alloc, name.as_bytes())?,
        }),
        PassFault::Unread | PassFault::Changed => Ok(Said {
            status: 3,
            text: unread_line(alloc, name.as_bytes())?,
        }),
        PassFault::Memory => Err(Memory),
        PassFault::Unwritten => unreachable!(),
    }
}

/// Writes a log whose end and summary have these lines.
pub fn write_long<R: Reel, S: Sink>(
    alloc: Global,
    format: Format,
    reel: &mut R,
    name: &str,
    tail: &[u8],
    out: &mut S,
) -> Result<(), PassFault>
    requires { (notes : List Note) × IsRun (R.files reel.old) name.now notes × IsLog (text_of notes) notes × (tail.now ≡ tail_of notes) }
    ensures text { OnOk result ((notes : List Note) × IsRun (R.files reel.old) name.now notes × IsLog (text_of notes) notes
        × Grew (S.held out.old) (S.held out.new) (export_of format notes)) }
    ensures changed { result ≡ Err PassFault.Changed → R.files reel.old ≡ None }
    ensures front { IfErr result (λ _. (text : List ℕ) × IsExportFront format (R.files reel.old) name.now text
        × GrewByFront (S.held out.old) (S.held out.new) text) }
    ensures only { IfErr result (λ fault. IsOfTelling fault) }
    ensures unread { result ≡ Err PassFault.Unread → Rose (R.faults reel.old) (R.faults reel.new) }
    ensures unwritten { result ≡ Err PassFault.Unwritten → Rose (S.faults out.old) (S.faults out.new) }
    ensures readable { result ≢ Err PassFault.Unread → R.faults reel.new ≡ R.faults reel.old }
    ensures writable { result ≢ Err PassFault.Unwritten → S.faults out.new ≡ S.faults out.old }
    ensures reel { (R.faults reel.old ≤ R.faults reel.new) × (R.files reel.new ≡ R.files reel.old) }
    ensures sink { S.faults out.old ≤ S.faults out.new }
{
    match format {
        Format::Table => write_csv(alloc, reel, name, tail, out),
        Format::Dump => write_vcd(alloc, reel, name, tail, out),
    }
}

// The status where a log couldn't be written to its end.
fn status_of(fault: PassFault) -> u8
    requires { IsOfTelling fault }
    ensures { result ≡ status_of fault }
{
    match fault {
        PassFault::Unread | PassFault::Changed => 3,
        PassFault::Unwritten => 4,
        PassFault::Memory => 8,
        PassFault::Line { .. } | PassFault::Unlisted { .. } | PassFault::Many => unreachable!(),
    }
}
