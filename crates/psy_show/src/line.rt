//! A line as it is shown around a place.
ghost use Rattle.std.specs.Prelude.{◌≡◌, ◌++◌, ◌<◌, ◌≤◌, ◌^◌, OnOk, codes, length, replicate};
ghost use Rattle.psy_base.specs.declared.limits.TheConstants.{FILE_BYTES};
ghost use Rattle.psy_show.specs.Lines.{marks, shown_line};

use crate::column::{add_glyphs, columns};
use crate::cut::{LINE, back_of, front_of};
use crate::text::chars_of;
use std::alloc::{AllocError, Global};

/// Adds a line as it is shown around a place, of which the bytes before the place and those from it on are given, and a line with a mark below: so many
/// columns from the place on, or all.
pub fn add_line(
    alloc: Global,
    out: &mut Vec<u8>,
    before: &[u8],
    behind: &[u8],
    wanted: Option<usize>,
) -> Result<(), AllocError>
    requires before { length before.now ≤ FILE_BYTES }
    requires behind { length behind.now ≤ FILE_BYTES }
    ensures { OnOk result (out.new.items ≡ out.old.items ++ shown_line before.now behind.now wanted) }
{
    let before = chars_of(alloc, before)?;
    let behind = chars_of(alloc, behind)?;
    let front = front_of(alloc, before.as_slice(), behind.as_slice())?;
    let start = columns(front.as_slice());
    let back = back_of(alloc, LINE.saturating_sub(start), behind.as_slice())?;
    add_glyphs(out, front.as_slice())?;
    add_glyphs(out, back.as_slice())?;
    out.push(b'\n')?;
    add_times(out, start, b' ')?;
    add_times(out, marks(wanted, columns(back.as_slice())), b'^')?;
    out.push(b'\n')?;
    Ok(())
}

fn add_times(out: &mut Vec<u8>, times: usize, byte: u8) -> Result<(), AllocError>
    ensures { OnOk result (out.new.items ≡ out.old.items ++ replicate times byte) }
{
    for _ in 0..times {
        out.push(byte)?;
    }
    Ok(())
}

fn marks(wanted: Option<usize>, shown: usize) -> usize
    ensures { result ≡ marks wanted shown }
{
    match wanted {
        None => shown.max(1),
        Some(wanted) => wanted.min(shown).max(1),
    }
}
