//! The front of a line as it is shown.
ghost use Rattle.std.specs.Prelude.{◌≡◌, ◌++◌, ◌≤◌, OnOk, length};
ghost use Rattle.psy_base.specs.declared.limits.TheConstants.{FILE_BYTES};
ghost use Rattle.psy_show.specs.Lines.{shown_in};

use crate::column::add_glyphs;
use crate::cut::back_of;
use crate::text::chars_of;
use std::alloc::{AllocError, Global};

/// Adds bytes as they are shown in so many columns: all that fits, or the front and `..`.
pub fn add_shown_in(
    alloc: Global,
    out: &mut Vec<u8>,
    bytes: &[u8],
    room: usize,
) -> Result<(), AllocError>
    requires { length bytes.now ≤ FILE_BYTES }
    ensures { OnOk result (out.new.items ≡ out.old.items ++ shown_in room bytes.now) }
{
    let chars = chars_of(alloc, bytes)?;
    let front = back_of(alloc, room, chars.as_slice())?;
    add_glyphs(out, front.as_slice())
}
