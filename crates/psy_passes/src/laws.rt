//! Names are found in tables as in the summary; and a text with too many lines is long.
ghost use Rattle.std.specs.Prelude.{◌≡◌, ◌≤◌, ◌+◌, ℕ, List, length, not, option_map};
ghost use Rattle.std.specs.List.{position};
ghost use Rattle.psy_log.specs.declared.note.Note.{Note};
ghost use Rattle.psy_passes.specs.Listing.{agents_in, first_unlisted, streams_in, variables_in};
ghost use Rattle.psy_passes.specs.Outcomes.{IsMany};
ghost use Rattle.psy_passes.specs.Tables.{is_among};
ghost use Rattle.psy_passes.specs.declared.listed.Listed.{Listed};
ghost use Rattle.psy_passes.specs.declared.reading.TheConstants.{LINES};

use psy_notes::laws::few_notes;

/// Where tables have the names of the summary, the first note with a name that isn't among them is the first with one that it doesn't list.
pub fn found_unlisted()
    ensures { (listed : Listed) (notes : List Note) → listed.agents ≡ agents_in notes → listed.variables ≡ variables_in notes
        → listed.streams ≡ streams_in notes → option_map (λ k. k + 1) (position (λ n. not (is_among listed n)) notes) ≡ first_unlisted notes }
{}

/// A text that has more lines than a run may have has no fewer bytes.
pub fn many_bytes()
    ensures { (text : List ℕ) → IsMany text → LINES ≤ length text }
{
    few_notes();
}
