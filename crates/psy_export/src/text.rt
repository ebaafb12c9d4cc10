//! The run in a text in another form.
ghost use Rattle.std.specs.Prelude.{◌≡◌, ◌≢◌, ℕ, List, Some, IfErr, IfOk};
ghost use Rattle.psy_log.specs.declared.note.Note.{Note};
ghost use Rattle.psy_notes.specs.Stands.{run_begins};
ghost use Rattle.psy_notes.specs.Texts.{BreaksAt, IsText};
ghost use Rattle.psy_passes.specs.Listing.{first_unlisted};
ghost use Rattle.psy_passes.specs.Logs.{IsLog};
ghost use Rattle.psy_passes.specs.Outcomes.{IsMany, IsOfText};
ghost use Rattle.psy_passes.specs.declared.fault.PassFault.TheVariants.{Line, Many, Unlisted};
ghost use Rattle.psy_export.specs.Exports.{export_of};

use crate::exporting::write_long;
use crate::forms::Format;
use crate::text_sink::TextSink;
use psy_passes::{PassFault, survey};
use psy_reel::TextReel;
use std::alloc::Global;

/// What `export` writes of the run in a file with these bytes; or why they are no log.
pub fn export_text(alloc: Global, format: Format, text: &[u8]) -> Result<Vec<u8>, PassFault>
    ensures text { IfOk result (λ out. (notes : List Note) × IsLog text.now notes × (out.items ≡ export_of format notes)) }
    ensures line { (line : ℕ) → result ≡ Err (Line line) → BreaksAt run_begins text.now line }
    ensures unlisted { (line : ℕ) → result ≡ Err (Unlisted line)
        → (notes : List Note) × IsText run_begins text.now notes × (first_unlisted notes ≡ Some line) }
    ensures many { result ≡ Err Many → IsMany text.now }
    ensures only { IfErr result (λ fault. IsOfText fault) }
{
    let mut reel = TextReel::new("", text);
    let tail = match survey(alloc, &mut reel, "") {
        Ok(tail) => tail,
        Err(fault) => return Err(fault),
    };
    let mut out = TextSink {
        text: Vec::new(alloc),
        faults: 0,
    };
    match write_long(alloc, format, &mut reel, "", tail.as_slice(), &mut out) {
        Ok(()) => Ok(out.text),
        Err(_) => Err(PassFault::Memory),
    }
}
