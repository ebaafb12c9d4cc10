//! Characters in the columns of a screen.
ghost use Rattle.std.specs.Prelude.{◌≡◌, ◌++◌, ◌<◌, ◌≤◌, ◌*◌, ◌^◌, OnOk, length};
ghost use Rattle.psy_show.specs.Columns.{columns, glyph, glyphs, width};

use std::alloc::AllocError;
use unicode_width::UnicodeWidthChar;

/// How many columns a character takes as it is shown.
#[tactic(auto, unfolding(crate::specs::Columns::width))]
pub fn width(c: char) -> usize
    ensures value { result ≡ width c }
    ensures small { result ≤ 4 }
{
    if c == '\t' {
        return 4;
    }
    c.width().unwrap_or(1)
}

/// How many columns some characters take.
pub fn columns(chars: &[char]) -> usize
    requires { length chars.now < 2 ^ 32 }
    ensures value { result ≡ columns chars.now }
    ensures small { result ≤ 4 * length chars.now }
{
    let mut columns = 0;
    for c in chars {
        columns += width(*c);
    }
    columns
}

/// Adds a character as it is shown.
#[tactic(auto, unfolding(crate::specs::Columns::glyph))]
pub fn add_glyph(out: &mut Vec<u8>, c: char) -> Result<(), AllocError>
    ensures { OnOk result (out.new.items ≡ out.old.items ++ glyph c) }
{
    if c == '\t' {
        return out.extend_from_slice(b"    ");
    }
    if c.width().is_none() {
        return out.extend_from_slice(b"?");
    }
    let mut bytes = [0u8; 4];
    out.extend_from_slice(c.encode_utf8(&mut bytes).as_bytes())
}

/// Adds characters as they are shown.
pub fn add_glyphs(out: &mut Vec<u8>, chars: &[char]) -> Result<(), AllocError>
    ensures { OnOk result (out.new.items ≡ out.old.items ++ glyphs chars.now) }
{
    for c in chars {
        add_glyph(out, *c)?;
    }
    Ok(())
}
