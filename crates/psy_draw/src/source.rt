//! What a picture is drawn of.

use crate::known::Known;
use crate::scale::Scale;
use crate::series::Series;
use psy_log::Note;

/// What a picture is drawn of: the summary of a run, the columns of its variables and of its streams, what the program tells of it, the names that were
/// asked for, and the scale.
#[derive(Clone, Copy)]
pub struct Source<'a, 's> {
    pub summary: &'s [Note<'a>],
    pub variables: &'s Series<'a>,
    pub streams: &'s Series<'a>,
    pub known: Known<'s>,
    pub names: &'s [String],
    pub scale: &'s Scale,
}
