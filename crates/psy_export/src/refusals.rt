//! The lines that are written where a run can't be exported.
ghost use Rattle.std.specs.Prelude.{◌≡◌, ◌++◌, IfOk, codes, decimal};
ghost use Rattle.psy_show.specs.Lines.{shown};
ghost use Rattle.psy_export.specs.Refusals.{broken_line, many_line, more_line, unlisted_line, unread_line};

use itoa::Buffer;
use psy_passes::LINES;
use psy_show::shown;
use psy_text::write::joined;
use std::alloc::{AllocError, Global};

/// `read NAME`
pub fn unread_line(alloc: Global, name: &[u8]) -> Result<Vec<u8>, AllocError>
    ensures { IfOk result (λ line. line.items ≡ unread_line name.now) }
{
    let name = shown(alloc, name)?;
    joined(alloc, &[b"read ", name.as_slice(), b"\n"])
}

// `NAME:LINE`, and what is told of that line.
fn told_at(alloc: Global, name: &[u8], line: usize, told: &[u8]) -> Result<Vec<u8>, AllocError>
    ensures { IfOk result (λ text. text.items ≡ shown name.now ++ codes ":" ++ decimal line ++ told.now) }
{
    let mut digits = Buffer::new();
    let line = digits.format(line as u64).as_bytes();
    let name = shown(alloc, name)?;
    joined(alloc, &[name.as_slice(), b":", line, told])
}

/// From this line on the text isn't what `psyc run` writes.
pub fn broken_line(alloc: Global, name: &[u8], line: usize) -> Result<Vec<u8>, AllocError>
    ensures { IfOk result (λ text. text.items ≡ broken_line name.now line) }
{
    told_at(
        alloc,
        name,
        line,
        b": from this line on this isn't what `psyc run` writes\n",
    )
}

/// This line has a name that the summary doesn't list.
pub fn unlisted_line(alloc: Global, name: &[u8], line: usize) -> Result<Vec<u8>, AllocError>
    ensures { IfOk result (λ text. text.items ≡ unlisted_line name.now line) }
{
    told_at(alloc, name, line, b": the summary doesn't list this name\n")
}

/// The text has more lines than a run may have.
pub fn many_line(alloc: Global, name: &[u8]) -> Result<Vec<u8>, AllocError>
    ensures { IfOk result (λ line. line.items ≡ many_line name.now) }
{
    more_line(alloc, name, LINES, b"lines")
}

/// The file has more than so many of what is counted.
pub fn more_line(
    alloc: Global,
    name: &[u8],
    most: usize,
    counted: &[u8],
) -> Result<Vec<u8>, AllocError>
    ensures { IfOk result (λ line. line.items ≡ more_line name.now most counted.now) }
{
    let mut digits = Buffer::new();
    let most = digits.format(most as u64).as_bytes();
    let name = shown(alloc, name)?;
    joined(
        alloc,
        &[
            name.as_slice(),
            b": this file has more than ",
            most,
            b" ",
            counted,
            b"\n",
        ],
    )
}
