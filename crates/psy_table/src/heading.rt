//! The names of the columns.
ghost use Rattle.std.specs.Prelude.{◌≡◌, ◌++◌, IfOk, OnOk, map};
ghost use Rattle.psy_table.specs.Fields.{fields, spelled};
ghost use Rattle.psy_table.specs.Rows.{heading};
ghost use Rattle.psy_table.specs.Stands.{columns_in};

use crate::field::add_field;
use psy_passes::{Listed, Names};
use std::alloc::{AllocError, Global};

/// The names of the columns.
pub fn heading_of(alloc: Global, listed: &Listed) -> Result<Vec<u8>, AllocError>
    ensures { IfOk result (λ text. text.items ≡ heading (columns_in listed.now)) }
{
    let mut text = Vec::from_slice(alloc, b"date")?;
    add_names(alloc, &mut text, b"", &listed.variables)?;
    add_names(alloc, &mut text, b"", &listed.streams)?;
    add_names(alloc, &mut text, b"stop ", &listed.agents)?;
    text.extend_from_slice(b"\r\n")?;
    Ok(text)
}

// Adds names behind commas, each with this front.
fn add_names(
    alloc: Global,
    out: &mut Vec<u8>,
    front: &[u8],
    names: &Names,
) -> Result<(), AllocError>
    ensures { OnOk result (out.new.items ≡ out.old.items ++ fields (map (λ name. spelled (front.now ++ name)) names.now)) }
{
    for place in 0..names.len() {
        let mut text = Vec::from_slice(alloc, front)?;
        text.extend_from_slice(names.name(place))?;
        add_field(out, text.as_slice())?;
    }
    Ok(())
}
