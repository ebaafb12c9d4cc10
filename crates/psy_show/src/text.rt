//! Bytes as characters.
ghost use Rattle.std.specs.Prelude.{◌≡◌, ◌++◌, ◌≤◌, IfOk, OnOk, length};
ghost use Rattle.bstr.specs.Utf8.{lossy_chars};
ghost use Rattle.psy_show.specs.Lines.{shown};

use crate::column::add_glyph;
use bstr::ByteSlice;
use std::alloc::{AllocError, Global};

/// The characters of some bytes.
pub fn chars_of(alloc: Global, bytes: &[u8]) -> Result<Vec<char>, AllocError>
    ensures chars { IfOk result (λ chars. chars.items ≡ lossy_chars bytes.now) }
    ensures within { IfOk result (λ chars. length chars.items ≤ length bytes.now) }
{
    let mut chars = Vec::new(alloc);
    'each: for c in bytes.chars() {
        chars.push(c)?;
    }
    Ok(chars)
}

/// How many characters some bytes are.
pub fn chars_len(bytes: &[u8]) -> usize
    ensures value { result ≡ length (lossy_chars bytes.now) }
    ensures within { result ≤ length bytes.now }
{
    bytes.chars().count()
}

/// Bytes as they are shown.
pub fn shown(alloc: Global, bytes: &[u8]) -> Result<Vec<u8>, AllocError>
    ensures { IfOk result (λ text. text.items ≡ shown bytes.now) }
{
    let mut text = Vec::new(alloc);
    add_shown(&mut text, bytes)?;
    Ok(text)
}

/// Adds bytes as they are shown.
pub fn add_shown(out: &mut Vec<u8>, bytes: &[u8]) -> Result<(), AllocError>
    ensures { OnOk result (out.new.items ≡ out.old.items ++ shown bytes.now) }
{
    'each: for c in bytes.chars() {
        add_glyph(out, c)?;
    }
    Ok(())
}
