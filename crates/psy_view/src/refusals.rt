//! The lines that are written where a text can't be viewed.
ghost use Rattle.std.specs.Prelude.{◌≡◌, ◌++◌, IfOk, OnOk};
ghost use Rattle.psy_view.specs.Refusals.{beyond_line, broken_line, broken_text, empty_line, foreign_line, long_line, no_refusal_line, slip_text};
ghost use Rattle.psy_view.specs.Refusals.{program_line, unknown_line, wrong_line};

use itoa::Buffer;
use psy_base::Memory;
use psy_claims::Slip;
use psy_draw::Window;
use psy_export::more_line;
use psy_show::shown;
use psy_slip::is_program;
use psy_text::write::joined;
use std::alloc::{AllocError, Global};

/// The file has more bytes than it may have.
pub fn long_line(alloc: Global, name: &[u8], most: usize) -> Result<Vec<u8>, AllocError>
    ensures { IfOk result (λ line. line.items ≡ long_line name.now most) }
{
    more_line(alloc, name, most, b"bytes")
}

/// What stands behind the name is no line that psyc writes.
pub fn no_refusal_line(alloc: Global, name: &[u8]) -> Result<Vec<u8>, AllocError>
    ensures { IfOk result (λ line. line.items ≡ no_refusal_line name.now) }
{
    let name = shown(alloc, name)?;
    joined(
        alloc,
        &[
            name.as_slice(),
            b": what is told of this file is no line that psyc writes\n",
        ],
    )
}

/// The text has no such byte, token or line.
pub fn beyond_line(alloc: Global, name: &[u8]) -> Result<Vec<u8>, AllocError>
    ensures { IfOk result (λ line. line.items ≡ beyond_line name.now) }
{
    let name = shown(alloc, name)?;
    joined(
        alloc,
        &[name.as_slice(), b": this file has no such place\n"],
    )
}

// From this line on the text isn't what that command of psyc writes.
fn broken_line(
    alloc: Global,
    name: &[u8],
    line: usize,
    command: &[u8],
) -> Result<Vec<u8>, AllocError>
    ensures { IfOk result (λ text. text.items ≡ broken_line name.now line command.now) }
{
    let mut digits = Buffer::new();
    let line = digits.format(line as u64).as_bytes();
    let name = shown(alloc, name)?;
    joined(
        alloc,
        &[
            name.as_slice(),
            b":",
            line,
            b": from this line on this isn't what `psyc ",
            command,
            b"` writes\n",
        ],
    )
}

/// The same, and behind it that the text looks like a program, where it does. The only error is want of memory.
pub fn broken_text(
    alloc: Global,
    name: &[u8],
    line: usize,
    command: &[u8],
    text: &[u8],
) -> Result<Vec<u8>, Memory>
    ensures { IfOk result (λ told. told.items ≡ broken_text name.now line command.now text.now) }
{
    let mut told = broken_line(alloc, name, line, command)?;
    if is_program(alloc, text)? {
        add_program(&mut told, command)?;
    }
    Ok(told)
}

fn add_program(out: &mut Vec<u8>, command: &[u8]) -> Result<(), AllocError>
    ensures { OnOk result (out.new.items ≡ out.old.items ++ program_line command.now) }
{
    out.extend_from_slice(b"hint: this file looks like a program: give what `psyc ")?;
    out.extend_from_slice(command)?;
    out.extend_from_slice(b"` writes of it\n")
}

/// This line of what psyc wrote isn't of the program in that file.
pub fn foreign_line(
    alloc: Global,
    name: &[u8],
    line: usize,
    program: &[u8],
) -> Result<Vec<u8>, AllocError>
    ensures { IfOk result (λ text. text.items ≡ foreign_line name.now line program.now) }
{
    let mut digits = Buffer::new();
    let line = digits.format(line as u64).as_bytes();
    let name = shown(alloc, name)?;
    let program = shown(alloc, program)?;
    joined(
        alloc,
        &[
            name.as_slice(),
            b":",
            line,
            b": this isn't of the program in ",
            program.as_slice(),
            b"\n",
        ],
    )
}

/// The summary of the log doesn't list this name, for which was asked.
pub fn unknown_line(alloc: Global, name: &[u8], asked: &[u8]) -> Result<Vec<u8>, AllocError>
    ensures { IfOk result (λ text. text.items ≡ unknown_line name.now asked.now) }
{
    let name = shown(alloc, name)?;
    let asked = shown(alloc, asked)?;
    joined(
        alloc,
        &[
            asked.as_slice(),
            b": the summary of ",
            name.as_slice(),
            b" doesn't list this name\n",
        ],
    )
}

/// No date of the run lies in the window.
pub fn empty_line(alloc: Global, name: &[u8], window: Window) -> Result<Vec<u8>, AllocError>
    ensures { IfOk result (λ text. text.items ≡ empty_line name.now window.from window.to) }
{
    let mut first = Buffer::new();
    let from = first.format(window.from).as_bytes();
    let mut last = Buffer::new();
    let to = last.format(window.to).as_bytes();
    let name = shown(alloc, name)?;
    joined(
        alloc,
        &[
            name.as_slice(),
            b": no date of this run lies from ",
            from,
            b" to ",
            to,
            b"\n",
        ],
    )
}

/// This line of a file of assertions is wrong.
pub fn wrong_line(
    alloc: Global,
    name: &[u8],
    line: usize,
    slip: Slip,
) -> Result<Vec<u8>, AllocError>
    ensures { IfOk result (λ text. text.items ≡ wrong_line name.now line slip) }
{
    let mut digits = Buffer::new();
    let line = digits.format(line as u64).as_bytes();
    let name = shown(alloc, name)?;
    joined(
        alloc,
        &[name.as_slice(), b":", line, b": ", slip_text(slip), b"\n"],
    )
}

// What is wrong with it.
fn slip_text(slip: Slip) -> &'static [u8]
    ensures { result.now ≡ slip_text slip }
{
    match slip {
        Slip::Form => b"this line is no assertion",
        Slip::Dates => b"the last date lies below the first",
        Slip::Name => b"the summary of the log doesn't list this name",
    }
}
