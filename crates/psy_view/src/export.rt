//! The run in a file in another form.
ghost use Rattle.std.specs.Prelude.{◌≡◌, ◌≢◌, ◌≤◌};
ghost use Rattle.psy_view.specs.Outcome.{EndsExport};

use crate::asked::TEXT_BYTES;
use crate::log::exported_text;
use crate::view::View;
use psy_base::Memory;
use psy_door::{FetchFault, Sink};
use psy_export::{Format, export, say, unread_line};
use psy_reel::Reel;
use std::alloc::{AllocError, Global};

/// Writes the run in the file with this name in a format, and answers the status: of a file that is read together what is told of its text, of a longer
/// one by passes.
pub fn exported<R: Reel, S: Sink>(
    alloc: Global,
    name: &str,
    format: Format,
    reel: &mut R,
    out: &mut S,
) -> u8
    ensures ends { EndsExport (R.files reel.old) name.now format (R.faults reel.old) (R.faults reel.new) (S.faults out.old) (S.faults out.new)
        (S.held out.old) (S.held out.new) result }
    ensures unfailed { result ≢ 4 → S.faults out.new ≡ S.faults out.old }
    ensures shelf { (R.faults reel.old ≤ R.faults reel.new) × (R.files reel.new ≡ R.files reel.old) }
    ensures sink { S.faults out.old ≤ S.faults out.new }
{
    match reel.fetch_most(alloc, name, TEXT_BYTES) {
        Ok(bytes) => match exported_text(alloc, name, format, bytes.as_slice()) {
            Ok(View { status, text }) => say(text.as_slice(), status, out),
            Err(Memory) => 8,
        },
        Err(FetchFault::TooLong) => export(alloc, format, reel, name, out),
        Err(FetchFault::Failed) => match unread_line(alloc, name.as_bytes()) {
            Ok(line) => say(line.as_slice(), 3, out),
            Err(AllocError) => 8,
        },
        Err(FetchFault::Memory) => 8,
    }
}
