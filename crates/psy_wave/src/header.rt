//! The head of a dump: what is dumped, and its first values.
ghost use Rattle.std.specs.Prelude.{◌≡◌, ◌++◌, IfOk, OnOk};
ghost use Rattle.psy_wave.specs.Heads.{all_valued, declared, declared_from, definitions, first_values, head, scope};

use crate::line::{add_code, add_value};
use psy_passes::{Listed, Names};
use std::alloc::{AllocError, Global};

/// The declarations of all that is dumped, and the first values.
pub fn head_of(alloc: Global, listed: &Listed) -> Result<Vec<u8>, AllocError>
    ensures { IfOk result (λ text. text.items ≡ head listed.now.variables listed.now.streams listed.now.agents) }
{
    let mut text = Vec::new(alloc);
    add_definitions(&mut text, listed)?;
    add_first_values(&mut text, listed)?;
    Ok(text)
}

// Adds the declarations.
fn add_definitions(out: &mut Vec<u8>, listed: &Listed) -> Result<(), AllocError>
    ensures { OnOk result (out.new.items ≡ out.old.items ++ definitions listed.now.variables listed.now.streams listed.now.agents) }
{
    out.extend_from_slice(
        b"$comment a tick of the run is a nanosecond $end\n$timescale 1 ns $end\n",
    )?;
    add_scope(out, b"variables", b"integer 32 ", b'v', &listed.variables)?;
    add_scope(out, b"messages", b"event 1 ", b'e', &listed.streams)?;
    add_scope(
        out,
        b"message_values",
        b"integer 32 ",
        b'm',
        &listed.streams,
    )?;
    add_scope(out, b"stops", b"wire 1 ", b's', &listed.agents)?;
    Ok(())
}

// Adds the end of the declarations, and the first values.
fn add_first_values(out: &mut Vec<u8>, listed: &Listed) -> Result<(), AllocError>
    ensures { OnOk result (out.new.items ≡ out.old.items ++ first_values listed.now.variables listed.now.streams listed.now.agents) }
{
    out.extend_from_slice(b"$enddefinitions $end\n#0\n$dumpvars\n")?;
    add_values(out, b"bx ", b'v', listed.variables.len())?;
    add_values(out, b"bx ", b'm', listed.streams.len())?;
    add_values(out, b"0", b's', listed.agents.len())?;
    out.extend_from_slice(b"$end\n")?;
    Ok(())
}

// Adds a scope with a declaration of each of these names.
fn add_scope(
    out: &mut Vec<u8>,
    title: &[u8],
    type_text: &[u8],
    kind: u8,
    names: &Names,
) -> Result<(), AllocError>
    ensures { OnOk result (out.new.items ≡ out.old.items ++ scope title.now type_text.now kind names.now) }
{
    out.extend_from_slice(b"$scope module ")?;
    out.extend_from_slice(title)?;
    out.extend_from_slice(b" $end\n")?;
    add_declarations(out, type_text, kind, names)?;
    out.extend_from_slice(b"$upscope $end\n")?;
    Ok(())
}

// Adds a declaration of each of these names.
fn add_declarations(
    out: &mut Vec<u8>,
    type_text: &[u8],
    kind: u8,
    names: &Names,
) -> Result<(), AllocError>
    ensures { OnOk result (out.new.items ≡ out.old.items ++ declared_from type_text.now kind 0 names.now) }
{
    for place in 0..names.len() {
        add_declaration(out, type_text, kind, place, names.name(place))?;
    }
    Ok(())
}

// Adds a declaration.
fn add_declaration(
    out: &mut Vec<u8>,
    type_text: &[u8],
    kind: u8,
    place: usize,
    name: &[u8],
) -> Result<(), AllocError>
    ensures { OnOk result (out.new.items ≡ out.old.items ++ declared type_text.now kind place name.now) }
{
    out.extend_from_slice(b"$var ")?;
    out.extend_from_slice(type_text)?;
    add_code(out, kind, place)?;
    out.push(b' ')?;
    out.extend_from_slice(name)?;
    out.extend_from_slice(b" $end\n")
}

// Adds that so many things have this value.
fn add_values(out: &mut Vec<u8>, value: &[u8], kind: u8, count: usize) -> Result<(), AllocError>
    ensures { OnOk result (out.new.items ≡ out.old.items ++ all_valued value.now kind 0 count) }
{
    for place in 0..count {
        add_value(out, value, kind, place)?;
    }
    Ok(())
}
