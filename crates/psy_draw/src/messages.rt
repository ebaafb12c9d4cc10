//! The lane of a stream: a mark for each message.

ghost use Rattle.std.specs.Prelude.{◌≡◌, ◌≤◌, ◌++◌, OnOk};
ghost use Rattle.psy_draw.specs.Insides.{mark_label, mark_labels, mark_width, marks_inside, marks_text, more_of};

use crate::column::Column;
use crate::labels::{self, Extent};
use crate::markup::PATH_END;
use crate::scale::PLOT_WIDTH;
use psy_base::Memory;
use psy_page::Page;
use psy_page::Piece::{Labelled, Number, Value};

/// The height of a lane.
pub const MESSAGES_HEIGHT: u32 = 36;

/// A line up to a place, on which marks begin.
pub const MARKS: &[u8] = b"<path class=\"base\" d=\"M0 24H$\"/>
<path class=\"mark\" d=\"";

/// A mark at a place.
pub const MARK: &[u8] = b"M$ 24h0";

/// What stands over a mark: a value, and how many more there are.
pub const MARK_LABEL: &[u8] = b"<text x=\"$\" y=\"15\">$$</text>\n";

/// Before how many more there are.
pub const MORE: &[u8] = b" +";

/// Draws a stream.
pub fn draw_messages(page: &mut Page, columns: &[Column]) -> Result<(), Memory>
    ensures { OnOk result (page.new ≡ page.old ++ marks_inside columns.now) }
{
    put_marks(page, columns)?;
    put_labels(page, columns)
}

fn put_marks(page: &mut Page, columns: &[Column]) -> Result<(), Memory>
    ensures { OnOk result (page.new ≡ page.old ++ marks_text columns.now) }
{
    page.fill(MARKS, &[Number(PLOT_WIDTH)])?;
    for column in columns {
        page.fill(MARK, &[Number(column.x)])?;
    }
    page.add(PATH_END)
}

// Writes each first value of a column over its mark, where there is room.
fn put_labels(page: &mut Page, columns: &[Column]) -> Result<(), Memory>
    ensures { OnOk result (page.new ≡ page.old ++ mark_labels 0 columns.now) }
{
    let mut free = 0;
    'labels: for column in columns {
        let extent = Extent::around(column.x, width_of(column));
        if extent.fits(free) {
            put_label(page, extent.from, column)?;
            free = extent.free();
        }
    }
    Ok(())
}

// How wide the label of a column is.
fn width_of(column: &Column) -> u32
    ensures wide { result ≡ mark_width column.now }
    ensures narrow { result ≤ 2196 }
{
    let value = labels::width(column.first);
    if column.more == 0 {
        value
    } else {
        value + labels::digits_width(u64::from(column.more)) + labels::letters_width(2)
    }
}

fn put_label(page: &mut Page, x: u32, column: &Column) -> Result<(), Memory>
    ensures { OnOk result (page.new ≡ page.old ++ mark_label x column.now) }
{
    let more = Labelled(MORE, more_of(column));
    page.fill(MARK_LABEL, &[Number(x), Value(column.first), more])
}

// How many more messages there are than the first, where there are some.
fn more_of(column: &Column) -> Option<u32>
    ensures { result ≡ more_of column.now }
{
    if column.more == 0 {
        None
    } else {
        Some(column.more)
    }
}
