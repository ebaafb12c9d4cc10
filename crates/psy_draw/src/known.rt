//! What a program tells of a run.

use crate::home::Home;
use crate::silence::Silence;

/// What a program tells of a run: from when on its variables are silent, and of which processors its agents are, where that is told beside their names.
#[derive(Clone, Copy, Debug)]
pub struct Known<'a> {
    pub silences: &'a [Silence<'a>],
    pub homes: &'a [Home<'a>],
}

impl Known<'_> {
    /// Nothing, where no program is given.
    pub const NOTHING: Known<'static> = Known {
        silences: &[],
        homes: &[],
    };
}
