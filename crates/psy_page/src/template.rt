//! How the holes of a template are filled.

ghost use Rattle.std.specs.Prelude.{◌≡◌, ◌++◌, OnOk, map};
ghost use Rattle.std.specs.List.{flat_map};
ghost use Rattle.psy_page.specs.Spelling.{escaped, labelled, spelled};
ghost use Rattle.psy_page.specs.Templates.{fill, holes_behind, next};

use crate::piece::Piece;
use psy_show::add_shown;
use psy_text::write::{add_labelled, add_number, add_value};
use std::alloc::AllocError;

/// Adds a template with these in its holes: each `$` is a hole, and holes without a piece stay empty.
#[tactic(auto, unfolding(crate::specs::Templates::fill))]
pub fn fill(out: &mut Vec<u8>, template: &[u8], holes: &[Piece]) -> Result<(), AllocError>
    ensures { OnOk result (out.new.items ≡ out.old.items ++ fill template.now (map spelled holes.now)) }
{
    let mut rest = template;
    let mut left = holes;
    'each: while let [byte, more @ ..] = rest {
        add_next(out, *byte, left)?;
        left = holes_behind(*byte, left);
        rest = more;
    }
    Ok(())
}

// Adds a byte of a template, or what stands in the hole that it is.
fn add_next(out: &mut Vec<u8>, byte: u8, holes: &[Piece]) -> Result<(), AllocError>
    ensures { OnOk result (out.new.items ≡ out.old.items ++ next byte (map spelled holes.now)) }
{
    if byte != b'$' {
        return out.extend_from_slice(&[byte]);
    }
    match holes.first() {
        Some(piece) => add_piece(out, *piece),
        None => Ok(()),
    }
}

// The pieces of the holes behind a byte.
fn holes_behind<'a, 'b>(byte: u8, holes: &'a [Piece<'b>]) -> &'a [Piece<'b>]
    ensures { map spelled result.now ≡ holes_behind byte (map spelled holes.now) }
{
    if byte != b'$' {
        return holes;
    }
    match holes {
        [_, more @ ..] => more,
        [] => holes,
    }
}

fn add_piece(out: &mut Vec<u8>, piece: Piece) -> Result<(), AllocError>
    ensures { OnOk result (out.new.items ≡ out.old.items ++ spelled piece.entry) }
{
    match piece {
        Piece::Raw(bytes) => out.extend_from_slice(bytes),
        Piece::Text(text) => add_text(out, text),
        Piece::Shown(name) => add_shown(out, name),
        Piece::Number(number) => add_number(out, u64::from(number)),
        Piece::Long(number) => add_number(out, number),
        Piece::Value(value) => add_value(out, value),
        Piece::Labelled(label, number) => add_labelled_number(out, label, number),
    }
}

fn add_labelled_number(
    out: &mut Vec<u8>,
    label: &[u8],
    number: Option<u32>,
) -> Result<(), AllocError>
    ensures { OnOk result (out.new.items ≡ out.old.items ++ labelled label.now number) }
{
    match number {
        Some(number) => add_labelled(out, label, u64::from(number)),
        None => Ok(()),
    }
}

fn add_text(out: &mut Vec<u8>, text: &[u8]) -> Result<(), AllocError>
    ensures { OnOk result (out.new.items ≡ out.old.items ++ flat_map escaped text.now) }
{
    'letters: for byte in text {
        add_letter(out, *byte)?;
    }
    Ok(())
}

fn add_letter(out: &mut Vec<u8>, byte: u8) -> Result<(), AllocError>
    ensures { OnOk result (out.new.items ≡ out.old.items ++ escaped byte) }
{
    match byte {
        b'&' => out.extend_from_slice(b"&amp;"),
        b'<' => out.extend_from_slice(b"&lt;"),
        b'>' => out.extend_from_slice(b"&gt;"),
        b'"' => out.extend_from_slice(b"&quot;"),
        0..=31 => out.extend_from_slice(b"?"),
        _ => out.extend_from_slice(&[byte]),
    }
}
