//! Logs read from texts.
ghost use Rattle.std.specs.Prelude.{◌≡◌, ◌≢◌, ℕ, List, IfErr, IfOk};
ghost use Rattle.psy_log.specs.declared.note.Note.{Note};
ghost use Rattle.psy_notes.specs.Stands.{run_begins};
ghost use Rattle.psy_notes.specs.Texts.{BreaksAt, IsText};
ghost use Rattle.psy_passes.specs.declared.fault.PassFault.TheVariants.{Line, Many, Unlisted};
ghost use Rattle.psy_passes.specs.Listing.{agents_in, first_unlisted, streams_in, variables_in};
ghost use Rattle.psy_passes.specs.Logs.{IsLog};
ghost use Rattle.psy_passes.specs.Outcomes.{IsOfText};

use crate::fault::PassFault;
use crate::listed::Listed;
use psy_log::Note;
use psy_notes::{TextFault, read_run};
use std::alloc::Global;

/// The notes of a run, and the names that its summary lists.
#[derive(Drop)]
pub struct Log<'a> {
    pub notes: Vec<Note<'a>>,
    pub listed: Listed<'a>,
}

/// The log that `psyc run` wrote; or the first line that isn't in form, or else the first with a name that the summary doesn't list.
pub fn read_log<'a>(alloc: Global, text: &'a [u8]) -> Result<Log<'a>, PassFault>
    ensures notes { IfOk result (λ log. IsLog text.now log.notes.items) }
    ensures agents { IfOk result (λ log. log.listed.agents ≡ agents_in log.notes.items) }
    ensures variables { IfOk result (λ log. log.listed.variables ≡ variables_in log.notes.items) }
    ensures streams { IfOk result (λ log. log.listed.streams ≡ streams_in log.notes.items) }
    ensures line { (line : ℕ) → result ≡ Err (Line line) → BreaksAt run_begins text.now line }
    ensures unlisted { (line : ℕ) → result ≡ Err (Unlisted line)
        → (notes : List Note) × IsText run_begins text.now notes × (first_unlisted notes ≡ Some line) }
    ensures many { result ≢ Err Many }
    ensures only { IfErr result (λ fault. IsOfText fault) }
{
    let notes = match read_run(alloc, text) {
        Ok(notes) => notes,
        Err(TextFault::Line { line }) => return Err(PassFault::Line { line }),
        Err(TextFault::Memory) => return Err(PassFault::Memory),
    };
    let listed = Listed::of(alloc, notes.as_slice())?;
    match listed.first_unlisted(notes.as_slice()) {
        Some(place) => Err(PassFault::Unlisted { line: place + 1 }),
        None => Ok(Log { notes, listed }),
    }
}
