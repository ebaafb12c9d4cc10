//! The times of a dump rise.
ghost use Rattle.std.specs.Prelude.{◌≡◌, ℕ, List, Option};
ghost use Rattle.std.specs.List.{flat_map};
ghost use Rattle.psy_log.specs.declared.note.Note.{Note};
ghost use Rattle.psy_notes.specs.Stands.{run_begins};
ghost use Rattle.psy_notes.specs.Texts.{IsText};
ghost use Rattle.psy_wave.specs.Changes.{stamp};
ghost use Rattle.psy_wave.specs.Times.{Rise, time_line, times, times_by};

/// The times of a log's dump, behind the 0 of its head, rise: none is written twice, and none before an earlier one.
pub fn rising_times()
    ensures rise { (text : List ℕ) (notes : List Note) → IsText run_begins text notes → Rise 0 (times 0 notes) }
    ensures lines { (last : ℕ) (time : Option ℕ) → stamp last time ≡ flat_map time_line (times_by last time) }
{}
