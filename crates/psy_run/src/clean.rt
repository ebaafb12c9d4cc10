//! The top call over files and a sink whose calls never fail.
ghost use Rattle.std.specs.Prelude.{◌≡◌, ◌≢◌, ℕ, ◌⊎◌, List, [], map, string_bytes, Some};
ghost use Rattle.psy_door.specs.Files.{files_of};
ghost use Rattle.psy_door.specs.Growth.{Grew};
ghost use Rattle.psy_door.specs.States.{told};
ghost use Rattle.psy_run.specs.Answer.{Answers};

use crate::top::psyc;
use psy_door::{CleanShelf, CleanSink};
use psy_kernel::Kernel;
use std::alloc::Global;

/// `psyc` over devices that never fail: what is defined for the words is answered, or memory ran out and nothing was written.
pub fn psyc_over_clean(
    alloc: Global,
    words: &[String],
    shelf: &mut CleanShelf,
    out: &mut CleanSink,
    left: &mut Option<Kernel>,
) -> u8
    ensures complete { (status : ℕ) (text : List ℕ) → Answers (map string_bytes words.now) (Some (files_of shelf.old.files)) status text
        → ((result ≡ status) × Grew (told out.old) (told out.new) text) ⊎ ((result ≡ 8) × Grew (told out.old) (told out.new) []) }
    ensures never { (result ≢ 3) × (result ≢ 4) }
{
    psyc(alloc, words, shelf, out, left)
}
