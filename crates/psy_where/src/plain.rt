//! The notes of psyc's refusals that tell no place and have no number of their own.
ghost use Rattle.std.specs.Prelude.{◌≡◌};
ghost use Rattle.psy_log.specs.Forms.{says};
ghost use Rattle.psy_where.specs.Plains.{plain_in, plain_sentence, refused_of, unread_of, unspelled_of};

use crate::broken::{Broken, broken_of, broken_sentence};
use crate::limit::{Limit, limit_of, limit_sentence};
use crate::unsound::{Unsound, unsound_of, unsound_sentence};
use crate::untrue::{Untrue, untrue_of, untrue_sentence};
use psy_log::Note;

/// What a line of psyc says that tells no place and has no number of its own.
#[derive(Clone, Copy, Debug, PartialEq, Eq)]
pub enum Plain {
    /// The words are of no listed form.
    Words,
    /// The program can't be read.
    ReadProgram,
    /// The image can't be read.
    ReadImage,
    /// The inputs can't be read.
    ReadInputs,
    /// The script can't be read.
    ReadScript,
    /// The trace can't be read.
    ReadTrace,
    /// The state can't be read.
    ReadState,
    /// This limit is passed.
    Passed(Limit),
    /// The bytes are no image.
    BadImage,
    /// The code of an image breaks this rule.
    Unverified(Broken),
    /// A trace has this fault.
    Untrue(Untrue),
    /// A state has this fault.
    Unsound(Unsound),
    /// An agent doesn't stand so that a state can be taken.
    Busy,
}

/// The one that a note says.
pub fn plain_of(note: Note<'_>) -> Option<Plain>
    ensures { result ≡ plain_in (says note.entry).0 (says note.entry).1 }
{
    match note {
        Note::Words => Some(Plain::Words),
        Note::Read { file } => unread_of(file),
        Note::Limit { name, number } => Some(Plain::Passed(limit_of(name, number)?)),
        Note::RefusedImage { .. } => Some(Plain::BadImage),
        Note::Refused {
            what,
            number,
            at: Some(_),
        } => refused_of(what, number),
        Note::Refused { what, at: None, .. } => unspelled_of(what),
        Note::Busy { .. } => Some(Plain::Busy),
        _ => None,
    }
}

// That a file can't be read, by its role.
fn unread_of(file: &[u8]) -> Option<Plain>
    ensures { result ≡ unread_of file.now }
{
    if file == b"program".as_slice() {
        Some(Plain::ReadProgram)
    } else if file == b"image".as_slice() {
        Some(Plain::ReadImage)
    } else if file == b"inputs".as_slice() {
        Some(Plain::ReadInputs)
    } else if file == b"script".as_slice() {
        Some(Plain::ReadScript)
    } else if file == b"trace".as_slice() {
        Some(Plain::ReadTrace)
    } else if file == b"state".as_slice() {
        Some(Plain::ReadState)
    } else {
        None
    }
}

// That the code of an image breaks a rule, or a trace or a state has a fault, of whatever is refused by a number and a place.
fn refused_of(what: &[u8], number: u32) -> Option<Plain>
    ensures { result ≡ refused_of what.now number }
{
    if what == b"verify".as_slice() {
        Some(Plain::Unverified(broken_of(number)?))
    } else if what == b"trace".as_slice() {
        Some(Plain::Untrue(untrue_of(number)?))
    } else if what == b"state".as_slice() {
        Some(Plain::Unsound(unsound_of(number)?))
    } else {
        None
    }
}

// That bytes are no image, of whatever is refused by a place alone.
fn unspelled_of(what: &[u8]) -> Option<Plain>
    ensures { result ≡ unspelled_of what.now }
{
    if what == b"image".as_slice() {
        Some(Plain::BadImage)
    } else {
        None
    }
}

/// What it means.
pub fn plain_sentence(plain: Plain) -> &'static [u8]
    ensures { result.now ≡ plain_sentence plain }
{
    match plain {
        Plain::Words =>
            b"psyc has, with UNTIL up to a million, `run PROGRAM UNTIL [INPUTS [SCRIPT]]`, `check PROGRAM UNTIL`, `graph PROGRAM`, \
            `make SEED`, `trial SEED UNTIL`, `build PROGRAM`, `exec IMAGE UNTIL [INPUTS [SCRIPT]]`, `trace PROGRAM UNTIL [INPUTS [SCRIPT]]`, \
            `audit PROGRAM UNTIL TRACE [SCRIPT]`, `save PROGRAM DATE [INPUTS [SCRIPT]]` and `resume PROGRAM STATE UNTIL [INPUTS [SCRIPT]]`",
        Plain::ReadProgram =>
            b"psyc couldn't read the program: look whether a file of this name is there, is no folder, and may be read by you",
        Plain::ReadImage =>
            b"psyc couldn't read the image: look whether a file of this name is there, is no folder, and may be read by you",
        Plain::ReadInputs =>
            b"psyc couldn't read the inputs: look whether a file of this name is there, is no folder, and may be read by you",
        Plain::ReadScript =>
            b"psyc couldn't read the script: look whether a file of this name is there, is no folder, and may be read by you",
        Plain::ReadTrace =>
            b"psyc couldn't read the trace: look whether a file of this name is there, is no folder, and may be read by you",
        Plain::ReadState =>
            b"psyc couldn't read the state: look whether a file of this name is there, is no folder, and may be read by you",
        Plain::Passed(limit) => limit_sentence(limit),
        Plain::BadImage =>
            b"the bytes are no image: the field that begins at this byte is missing, cut or out of its range, or a byte stands behind the last field",
        Plain::Unverified(broken) => broken_sentence(broken),
        Plain::Untrue(untrue) => untrue_sentence(untrue),
        Plain::Unsound(unsound) => unsound_sentence(unsound),
        Plain::Busy =>
            b"this agent is in the middle of an action at that date, so no state can be taken there: each one that isn't silent has to start an action then, \
            or not to have begun; a later date may do",
    }
}
