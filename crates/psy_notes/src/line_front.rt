//! What stands at the front of a text of which a part was read.
ghost use Rattle.std.specs.Prelude.{◌≡◌, ◌==◌};
ghost use Rattle.std.specs.List.{list_any};
ghost use Rattle.psy_notes.specs.Fronts.{IsFront, NoLine, is_part};

use crate::read::first_step;
use crate::stand::Stand;
use psy_log::Note;

/// The line of a note that can be told has at most so many bytes.
pub const NOTE_BYTES: usize = 128;

/// What stands at the front of a text of which a part was read.
#[derive(Drop)]
pub enum Front<'a> {
    /// The line of a note that may stand there; where the text stands behind it, and the bytes behind it.
    Line {
        note: Note<'a>,
        stand: Stand,
        rest: &'a [u8],
    },
    /// A part of a line, or nothing: it is to be seen what comes.
    Part,
    /// What can't be the front of a line that may stand there.
    Broken,
}

/// What stands at the front of a text that begins with these bytes.
pub fn read_front(stand: Stand, bytes: &[u8]) -> Front<'_>
    ensures { IsFront stand bytes.now result }
{
    match first_step(stand, bytes) {
        Some(step) => Front::Line {
            note: step.note,
            stand: step.stand,
            rest: step.rest,
        },
        None => open_front(stand, bytes),
    }
}

// The same where no line stands there.
fn open_front(stand: Stand, bytes: &[u8]) -> Front<'_>
    requires { NoLine stand bytes.now }
    ensures { IsFront stand bytes.now result }
{
    let _ = stand;
    if is_part(bytes) {
        Front::Part
    } else {
        Front::Broken
    }
}

fn is_part(bytes: &[u8]) -> bool
    ensures { result ≡ is_part bytes.now }
{
    bytes.len() < NOTE_BYTES && !has_feed(bytes)
}

// Whether a line feed is among these bytes.
fn has_feed(bytes: &[u8]) -> bool
    ensures { result ≡ list_any (λ b. b == 10) bytes.now }
{
    bytes.iter().any(|byte| *byte == b'\n')
}
