//! Fields of a line.
ghost use Rattle.std.specs.Prelude.{◌≡◌, [], ◌∷◌, ◌++◌, OnOk};
ghost use Rattle.std.specs.List.{flat_map, list_any};
ghost use Rattle.psy_table.specs.Fields.{doubled, is_special, spelled};

use std::alloc::AllocError;

/// Adds a field behind a comma, with quotes round it where it has a byte that would end it.
pub fn add_field(out: &mut Vec<u8>, text: &[u8]) -> Result<(), AllocError>
    ensures { OnOk result (out.new.items ≡ out.old.items ++ 44 ∷ spelled text.now) }
{
    out.push(b',')?;
    if has_special(text) {
        add_quoted(out, text)
    } else {
        out.extend_from_slice(text)
    }
}

// Whether a text has a byte that ends a field, or begins one in quotes.
fn has_special(text: &[u8]) -> bool
    ensures { result ≡ list_any is_special text.now }
{
    text.iter().any(|byte| *byte == b',' || *byte == b'"' || *byte == b'\r' || *byte == b'\n')
}

// Adds a text in quotes; each quote in it stands twice.
fn add_quoted(out: &mut Vec<u8>, text: &[u8]) -> Result<(), AllocError>
    ensures { OnOk result (out.new.items ≡ out.old.items ++ 34 ∷ flat_map doubled text.now ++ 34 ∷ []) }
{
    out.push(b'"')?;
    add_doubled(out, text)?;
    out.push(b'"')?;
    Ok(())
}

// Adds a text with each quote twice.
fn add_doubled(out: &mut Vec<u8>, text: &[u8]) -> Result<(), AllocError>
    ensures { OnOk result (out.new.items ≡ out.old.items ++ flat_map doubled text.now) }
{
    for byte in text {
        if *byte == b'"' {
            out.push(b'"')?;
        }
        out.push(*byte)?;
    }
    Ok(())
}
