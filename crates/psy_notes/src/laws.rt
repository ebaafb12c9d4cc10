//! A text is read in one way.
ghost use Rattle.std.specs.Prelude.{◌≡◌, ◌≤◌, ℕ, List, ◌++◌, Contains, length, map};
ghost use Rattle.psy_log.specs.declared.note.Note.{Note};
ghost use Rattle.psy_log.specs.Forms.{line_of, says};
ghost use Rattle.psy_notes.specs.declared.stand.Stand.{Stand};
ghost use Rattle.psy_notes.specs.Lines.{IsLineOf};
ghost use Rattle.psy_notes.specs.Notes.{IsTold};
ghost use Rattle.psy_notes.specs.Texts.{IsText, BreaksAt, Leads, text_of};

use crate::forms::{CHECK, GRAPH, REFUSALS, RUN};

/// A line of a run says one note, and so does one of a graph, of a check and of a refusal: what stands at the front of a text has one form, says one
/// thing, and ends at one place.
pub fn one_note()
    ensures run { (some other : Note) (rest more : List ℕ) → IsTold some → IsTold other → Contains RUN (says some).0 → Contains RUN (says other).0
        → line_of some ++ rest ≡ line_of other ++ more → (says some ≡ says other) × (rest ≡ more) }
    ensures graph { (some other : Note) (rest more : List ℕ) → IsTold some → IsTold other → Contains GRAPH (says some).0 → Contains GRAPH (says other).0
        → line_of some ++ rest ≡ line_of other ++ more → (says some ≡ says other) × (rest ≡ more) }
    ensures check { (some other : Note) (rest more : List ℕ) → IsTold some → IsTold other → Contains CHECK (says some).0 → Contains CHECK (says other).0
        → line_of some ++ rest ≡ line_of other ++ more → (says some ≡ says other) × (rest ≡ more) }
    ensures refusal { (some other : Note) (rest more : List ℕ) → IsTold some → IsTold other → Contains REFUSALS (says some).0 → Contains REFUSALS (says other).0
        → line_of some ++ rest ≡ line_of other ++ more → (says some ≡ says other) × (rest ≡ more) }
{}

/// A line alone says one note.
pub fn one_line()
    ensures { (line : List ℕ) (some other : Note) → IsLineOf line some → IsLineOf line other → says some ≡ says other }
{}

/// A text is one of notes or breaks at a line: never neither, never both; and it breaks at one line alone.
pub fn one_reading()
    ensures either { (first : Stand) (text : List ℕ) → ((notes : List Note) → IsText first text notes → ⊥) → ((line : ℕ) → BreaksAt first text line → ⊥) → ⊥ }
    ensures not_both { (first : Stand) (text : List ℕ) (notes : List Note) (line : ℕ) → IsText first text notes → BreaksAt first text line → ⊥ }
    ensures line { (first : Stand) (text : List ℕ) (line other : ℕ) → BreaksAt first text line → BreaksAt first text other → line ≡ other }
{}

/// A front of a text's lines that is read otherwise says what the whole text's notes say there; and the rest is the lines of notes.
pub fn one_front()
    ensures { (first : Stand) (text : List ℕ) (notes fronts : List Note) (mid : Stand) (rest : List ℕ) → IsText first text notes
        → Leads first fronts mid → text ≡ text_of fronts ++ rest
        → (more : List Note) × (rest ≡ text_of more) × (length more ≤ length rest) × (map says notes ≡ map says fronts ++ map says more) }
{}

/// Each note's line has a byte: there are no more notes than their text has bytes.
pub fn few_notes()
    ensures { (from to : Stand) (notes : List Note) → Leads from notes to → length notes ≤ length (text_of notes) }
{}
