//! Where the lines of two logs differ first.
ghost use Rattle.std.specs.Prelude.{◌≡◌, ◌<◌, ◌≤◌, ◌^◌, None, All, IfSome, length, map};
ghost use Rattle.std.specs.Bool.{Decides};
ghost use Rattle.psy_base.specs.declared.limits.TheConstants.{WORD_BYTES};
ghost use Rattle.psy_log.specs.Forms.{line_of, name_of};
ghost use Rattle.psy_differ.specs.Differences.{DifferFirst, Fits};

use psy_log::{Line, Note};

/// The place, counted from 0, of the first line in which the lines of these notes differ; none exactly where they are the same.
pub fn first_difference(first: &[Note], second: &[Note]) -> Option<usize>
    requires first { All Fits first.now }
    requires second { All Fits second.now }
    ensures some { IfSome result (λ place. DifferFirst (map line_of first.now) (map line_of second.now) place) }
    ensures small { IfSome result (λ place. place < 2 ^ 63) }
    ensures none { result ≡ None → map line_of first.now ≡ map line_of second.now }
{
    let shared = first.len().min(second.len());
    for place in 0..shared {
        if !have_same_line(&first[place], &second[place]) {
            return Some(place);
        }
    }
    if first.len() == second.len() {
        None
    } else {
        Some(shared)
    }
}

// Whether two notes are said by the same line.
fn have_same_line(first: &Note, second: &Note) -> bool
    requires first { length (name_of first.now) ≤ WORD_BYTES }
    requires second { length (name_of second.now) ≤ WORD_BYTES }
    ensures { Decides result (line_of first.now ≡ line_of second.now) }
{
    let mut line = Line::new();
    let mut other = Line::new();
    line.set(first);
    other.set(second);
    line.bytes() == other.bytes()
}
