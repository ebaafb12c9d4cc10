//! Fronts and backs of characters that fit into columns.
ghost use Rattle.std.specs.Prelude.{◌≡◌, ◌+◌, ◌<◌, ◌≤◌, ◌^◌, IfOk, length};
ghost use Rattle.psy_show.specs.Columns.{columns};
ghost use Rattle.psy_show.specs.Cutting.{back_of, back_within, front_of, front_within};

use crate::column::{columns, width};
use std::alloc::{AllocError, Global};

/// Columns of a line that are shown at most.
pub const LINE: usize = 100;

/// Columns that are shown before the place, where the line has more than are shown.
pub const BEFORE: usize = 50;

/// Columns of the `..` for what is cut off.
pub const DOTS: usize = 2;

// The longest front that takes no more columns than these.
fn front_within(chars: &[char], most: usize) -> &[char]
    ensures front { result.now ≡ front_within most chars.now }
    ensures within { length result.now ≤ length chars.now }
{
    let mut room = most;
    let mut taken = 0;
    'each: while taken < chars.len() {
        let width = width(chars[taken]);
        if room < width {
            break;
        }
        room -= width;
        taken += 1;
    }
    &chars[..taken]
}

// The longest back.
fn back_within(chars: &[char], most: usize) -> &[char]
    ensures back { result.now ≡ back_within most chars.now }
    ensures within { length result.now ≤ length chars.now }
{
    let mut room = most;
    let mut start = chars.len();
    'each: while 0 < start {
        let width = width(chars[start - 1]);
        if room < width {
            break;
        }
        room -= width;
        start -= 1;
    }
    &chars[start..]
}

/// What is shown of a line before a place.
pub fn front_of(alloc: Global, before: &[char], behind: &[char]) -> Result<Vec<char>, AllocError>
    requires before { length before.now < 2 ^ 32 }
    requires behind { length behind.now < 2 ^ 32 }
    ensures front { IfOk result (λ front. front.items ≡ front_of before.now behind.now) }
    ensures within { IfOk result (λ front. length front.items ≤ length before.now + 2) }
{
    if columns(before) <= BEFORE || columns(before) + columns(behind) <= LINE {
        return Vec::from_slice(alloc, before);
    }
    let mut front = Vec::from_slice(alloc, &['.', '.'])?;
    front.extend_from_slice(back_within(before, BEFORE - DOTS))?;
    Ok(front)
}

/// What is shown from the place on, in so many columns.
pub fn back_of(alloc: Global, room: usize, behind: &[char]) -> Result<Vec<char>, AllocError>
    requires { length behind.now < 2 ^ 32 }
    ensures back { IfOk result (λ back. back.items ≡ back_of room behind.now) }
    ensures within { IfOk result (λ back. length back.items ≤ length behind.now + 2) }
{
    if columns(behind) <= room {
        return Vec::from_slice(alloc, behind);
    }
    let mut back = Vec::from_slice(alloc, front_within(behind, room.saturating_sub(DOTS)))?;
    back.extend_from_slice(&['.', '.'])?;
    Ok(back)
}
