//! The file of a picture.

ghost use Rattle.std.specs.Prelude.{◌≡◌, ◌<◌, ◌≤◌, IfOk, length, vec_len};
ghost use Rattle.psy_draw.specs.Pictures.{svg_of};

use psy_base::Memory;
use psy_page::Page;
use std::alloc::Global;

/// The most bytes of a file's inside.
pub const INSIDE_BYTES: usize = 1_999_900;

/// A file begins.
pub const SVG: &[u8] = b"<svg";

/// A file ends.
pub const SVG_END: &[u8] = b"</svg>\n";

/// The inside of a picture that stands for one that would be too large.
pub const TOO_LARGE: &[u8] =
    b" xmlns=\"http://www.w3.org/2000/svg\" width=\"320\" height=\"40\" role=\"img\">
<title>This picture would be too large.</title>
<text x=\"12\" y=\"24\">This picture would be too large.</text>
";

/// The file of a picture with this inside, or of one that says that it would be too large.
pub fn file_of(alloc: Global, inside: &Page) -> Result<Vec<u8>, Memory>
    ensures fits { length inside.now ≤ INSIDE_BYTES → IfOk result (λ svg. svg.items ≡ svg_of inside.now) }
    ensures large { INSIDE_BYTES < length inside.now → IfOk result (λ svg. svg.items ≡ svg_of TOO_LARGE.now) }
    ensures small { IfOk result (λ svg. vec_len svg ≤ 2000000) }
{
    if inside.bytes().len() <= INSIDE_BYTES {
        whole(alloc, inside.bytes())
    } else {
        too_large(alloc)
    }
}

/// The file that says that a picture would be too large.
pub fn too_large(alloc: Global) -> Result<Vec<u8>, Memory>
    ensures says { IfOk result (λ svg. svg.items ≡ svg_of TOO_LARGE.now) }
    ensures small { IfOk result (λ svg. vec_len svg ≤ 2000000) }
{
    whole(alloc, TOO_LARGE)
}

fn whole(alloc: Global, inside: &[u8]) -> Result<Vec<u8>, Memory>
    ensures { IfOk result (λ svg. svg.items ≡ svg_of inside.now) }
{
    let mut file = Vec::from_slice(alloc, SVG)?;
    file.extend_from_slice(inside)?;
    file.extend_from_slice(SVG_END)?;
    Ok(file)
}
