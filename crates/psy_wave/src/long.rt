//! The dump of a run of any length.
ghost use Rattle.std.specs.Prelude.{◌≡◌, ◌≢◌, ◌≤◌, ℕ, List, None, IfErr, OnOk};
ghost use Rattle.psy_door.specs.Faults.{Rose};
ghost use Rattle.psy_door.specs.Growth.{Grew, GrewByFront};
ghost use Rattle.psy_log.specs.declared.note.Note.{Note};
ghost use Rattle.psy_notes.specs.Texts.{text_of};
ghost use Rattle.psy_passes.specs.Logs.{IsLog};
ghost use Rattle.psy_passes.specs.Runs.{IsRun, tail_of};
ghost use Rattle.psy_passes.specs.Outcomes.{IsOfTelling};
ghost use Rattle.psy_wave.specs.Changes.{vcd_of};
ghost use Rattle.psy_wave.specs.Streams.{DumpFront};

use crate::header::head_of;
use crate::teller::ChangeTeller;
use psy_base::Memory;
use psy_door::Sink;
use psy_passes::{PassFault, names_of, write_text, write_told};
use psy_reel::Reel;
use std::alloc::Global;

/// Writes the value change dump of the run in the file with this name, piece by piece: at each date what was told of it, in the order of the log. It takes
/// memory that doesn't grow with the run's length. `tail` is the lines of its end and summary; the run's lines are in form, and its summary lists each name,
/// as `psy_passes::survey` says.
pub fn write_vcd<R: Reel, S: Sink>(
    alloc: Global,
    reel: &mut R,
    name: &str,
    tail: &[u8],
    out: &mut S,
) -> Result<(), PassFault>
    requires { (notes : List Note) × IsRun (R.files reel.old) name.now notes × IsLog (text_of notes) notes × (tail.now ≡ tail_of notes) }
    ensures dump { OnOk result ((notes : List Note) × IsRun (R.files reel.old) name.now notes × IsLog (text_of notes) notes
        × Grew (S.held out.old) (S.held out.new) (vcd_of notes)) }
    // The file isn't what it was: so it isn't one that is told.
    ensures changed { result ≡ Err PassFault.Changed → R.files reel.old ≡ None }
    // A file that couldn't be read to its end again, or memory or a sink that gave out, leaves a front of the dump.
    ensures front { IfErr result (λ _. (text : List ℕ) × DumpFront (R.files reel.old) name.now text × GrewByFront (S.held out.old) (S.held out.new) text) }
    ensures only { IfErr result (λ fault. IsOfTelling fault) }
    ensures unread { result ≡ Err PassFault.Unread → Rose (R.faults reel.old) (R.faults reel.new) }
    ensures unwritten { result ≡ Err PassFault.Unwritten → Rose (S.faults out.old) (S.faults out.new) }
    ensures readable { result ≢ Err PassFault.Unread → R.faults reel.new ≡ R.faults reel.old }
    ensures writable { result ≢ Err PassFault.Unwritten → S.faults out.new ≡ S.faults out.old }
    ensures reel { (R.faults reel.old ≤ R.faults reel.new) × (R.files reel.new ≡ R.files reel.old) }
    ensures sink { S.faults out.old ≤ S.faults out.new }
{
    let listed = match names_of(alloc, tail) {
        Ok(listed) => listed,
        Err(Memory) => return Err(PassFault::Memory),
    };
    let head = match head_of(alloc, &listed) {
        Ok(head) => head,
        Err(_) => return Err(PassFault::Memory),
    };
    if let Err(fault) = write_text(head.as_slice(), out) {
        return Err(fault);
    }
    let teller = ChangeTeller { listed, last: 0 };
    match write_told(alloc, reel, name, tail, teller, out) {
        Ok(_) => Ok(()),
        Err(fault) => Err(fault),
    }
}
