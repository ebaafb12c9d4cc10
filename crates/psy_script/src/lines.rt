//! How many lines a text has.
ghost use Rattle.std.specs.Prelude.{◌≡◌, length, nat_lt};
ghost use Rattle.psy_base.specs.declared.limits.TheConstants.{LINES};
ghost use Rattle.psy_text.specs.Lines.{lines_of};

use psy_base::limits;
use psy_text::line::cut_line;

/// The text has more lines than are read.
pub fn has_many_lines(text: &[u8]) -> bool
    ensures { result ≡ nat_lt LINES (length (lines_of text.now)) }
{
    let mut rest = text;
    let mut lines = 0;
    while let Some(cut) = cut_line(rest) {
        if lines == limits::LINES {
            return true;
        }
        lines += 1;
        rest = cut.rest;
    }
    false
}
