//! What comes of an assertion.
use psy_log::Note;

/// What comes of an assertion.
#[derive(Clone, Copy, Debug)]
pub enum Verdict<'a> {
    /// It holds.
    Kept,
    /// This note breaks it: the first that does.
    Broken { note: Note<'a> },
    /// It asks for something that isn't there.
    Missing,
}
