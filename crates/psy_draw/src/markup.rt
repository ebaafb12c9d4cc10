//! Templates that several parts of a picture share.

ghost use Rattle.std.specs.Prelude.{◌≡◌, ◌++◌, OnOk, map};
ghost use Rattle.psy_page.specs.Spelling.{spelled};
ghost use Rattle.psy_draw.specs.Strokes.{dashes};

use crate::scale::PLOT_WIDTH;
use psy_base::Memory;
use psy_page::{Page, Piece};

/// A path of a class begins.
pub const PATH: &[u8] = b"<path class=\"$\" d=\"";

/// A path ends.
pub const PATH_END: &[u8] = b"\"/>\n";

/// A group ends.
pub const GROUP_END: &[u8] = b"</g>\n";

/// A value at a place.
pub const LABEL: &[u8] = b"<text x=\"$\" y=\"$\">$</text>\n";

/// Adds a stroke from a place to the end of the plot, where it isn't there already.
pub fn put_dashes(
    page: &mut Page,
    from: u32,
    template: &[u8],
    holes: &[Piece],
) -> Result<(), Memory>
    ensures { OnOk result (page.new ≡ page.old ++ dashes from template.now (map spelled holes.now)) }
{
    if PLOT_WIDTH <= from {
        return Ok(());
    }
    page.fill(template, holes)
}
