//! What is told of a part of a lane where a pointer rests on it.

ghost use Rattle.std.specs.Prelude.{◌≡◌, ◌≤◌, ◌++◌, OnOk};
ghost use Rattle.psy_draw.specs.Insides.{others_text, part_of, part_text, told_inside};

use crate::boxes::end_by;
use crate::column::Column;
use crate::lane::{Lane, Shape};
use crate::scale::PLOT_WIDTH;
use psy_base::Memory;
use psy_page::Page;
use psy_page::Piece::{Long, Number, Value};

/// The most columns of a picture whose parts tell what they are.
pub const TELLING_COLUMNS: usize = 6_000;

// How far from its mark a message is told.
const AROUND: u32 = 4;

/// A part of a lane, with a date and a value.
pub const PART: &[u8] = b"<rect class=\"tell\" x=\"$\" width=\"$\" height=\"$\"><title>$: $";

/// The values behind the first one.
pub const OTHERS: &[u8] = b", then $ more, from $ to $";

/// A part ends.
pub const PART_END: &[u8] = b"</title></rect>\n";

/// Adds what the columns of a lane tell: over a variable's line the date and the value from there on, over each mark of a stream those of its message.
pub fn tell(page: &mut Page, lane: &Lane) -> Result<(), Memory>
    ensures { OnOk result (page.new ≡ page.old ++ told_inside lane.now.shape) }
{
    let mut rest = lane.columns();
    'columns: while let Some((column, later)) = rest.split_first() {
        put_part(page, lane, column, end_by(later, PLOT_WIDTH))?;
        rest = later;
    }
    Ok(())
}

// Adds what a column tells, where the next one begins at a place.
fn put_part(page: &mut Page, lane: &Lane, column: &Column, end: u32) -> Result<(), Memory>
    ensures { OnOk result (page.new ≡ page.old ++ part_text lane.now.shape column.now end) }
{
    let (from, to) = part_of(&lane.shape, column.x, end);
    page.fill(
        PART,
        &[
            Number(from),
            Number(to.saturating_sub(from).max(1)),
            Number(lane.height()),
            Long(column.date),
            Value(column.first),
        ],
    )?;
    put_others(page, column)?;
    page.add(PART_END)
}

// Where a column at a place is told: up to the next one, or around the mark of a message.
fn part_of(shape: &Shape, x: u32, end: u32) -> (u32, u32)
    requires { x ≤ 960 }
    ensures { result ≡ part_of shape.now x end }
{
    match shape {
        Shape::Marks(_) => (x.saturating_sub(AROUND), end.min(x + AROUND)),
        _ => (x, end),
    }
}

fn put_others(page: &mut Page, column: &Column) -> Result<(), Memory>
    ensures { OnOk result (page.new ≡ page.old ++ others_text column.now) }
{
    if column.is_even() {
        return Ok(());
    }
    page.fill(
        OTHERS,
        &[
            Number(column.more),
            Value(column.least),
            Value(column.greatest),
        ],
    )
}
