//! The lane of an agent that was stopped.

ghost use Rattle.std.specs.Prelude.{◌≡◌, ◌≤◌, ◌++◌, OnOk};
ghost use Rattle.psy_draw.specs.Labels.{cause_of};
ghost use Rattle.psy_draw.specs.Stops.{beside_mark, beside_text, stop_inside, stop_text, stop_width};

use crate::labels::{Extent, digits_width, letters_width};
use crate::markup::put_dashes;
use crate::scale::{PLOT_WIDTH, Scale};
use psy_arith::Trap;
use psy_base::Memory;
use psy_page::Page;
use psy_page::Piece::{Long, Number, Raw};

/// The height of a lane.
pub const STOP_HEIGHT: u32 = 26;

// What stays free beside the mark.
const BESIDE: u32 = 9;

/// A stop: when, where that is, and the trap, or none where its budget was spent; and the processor of the agent, where one is told.
#[derive(Clone, Copy, Debug, Drop)]
pub struct Stop {
    pub date: u64,
    pub x: u32,
    pub trap: Option<Trap>,
    pub processor: Option<u32>,
    ghost placed: { x ≤ 960 },
}

impl Stop {
    ghost use Rattle.psy_draw.specs.Places.{x_of};

    /// A stop at a date.
    pub fn new(scale: &Scale, date: u64, trap: Option<Trap>, processor: Option<u32>) -> Stop
        ensures { (result.date ≡ date) × (result.trap ≡ trap) × (result.processor ≡ processor)
            × (result.x ≡ x_of scale.now.from scale.now.to scale.now.grain date) }
    {
        Stop {
            date,
            x: scale.x(date),
            trap,
            processor,
        }
    }
}

/// A mark at a place.
pub const STOP_MARK: &[u8] = b"<path class=\"mark\" d=\"M$ 13h0\"/>\n";

/// The cause of a stop and its date, beginning or ending at a place.
pub const STOP_TEXT: &[u8] = b"<text text-anchor=\"$\" x=\"$\" y=\"17\">$ at $</text>\n";

/// A dashed line from a place to another.
pub const SILENCE: &[u8] = b"<path class=\"silence\" d=\"M$ 13H$\"/>\n";

/// Draws a stop: a mark, its cause and date beside it, and a dashed line up to the end.
pub fn draw_stop(page: &mut Page, stop: &Stop) -> Result<(), Memory>
    ensures { OnOk result (page.new ≡ page.old ++ stop_inside stop.now.x stop.now.date stop.now.trap) }
{
    page.fill(STOP_MARK, &[Number(stop.x)])?;
    put_cause(page, stop)
}

// Writes the cause at the right of the mark and then the dashed line, or at its left where there is no room.
fn put_cause(page: &mut Page, stop: &Stop) -> Result<(), Memory>
    ensures { OnOk result (page.new ≡ page.old ++ beside_mark stop.now.x stop.now.date stop.now.trap) }
{
    let right = Extent::new(stop.x + BESIDE, width_of(stop));
    if right.to <= PLOT_WIDTH {
        put_beside(page, b"start", right.from, right.to + 5, stop)
    } else {
        let x = stop.x.saturating_sub(BESIDE);
        put_beside(page, b"end", x, stop.x + BESIDE, stop)
    }
}

// How wide the cause and the date are.
fn width_of(stop: &Stop) -> u32
    ensures wide { result ≡ stop_width stop.now.date stop.now.trap }
    ensures narrow { result ≤ 2196 }
{
    letters_width(cause_of(stop.trap).len()) + letters_width(4) + digits_width(stop.date)
}

// Writes the cause and the date at a place, and the dashed line from another on.
fn put_beside(page: &mut Page, anchor: &[u8], x: u32, from: u32, stop: &Stop) -> Result<(), Memory>
    ensures { OnOk result (page.new ≡ page.old ++ beside_text anchor.now x from stop.now.date stop.now.trap) }
{
    put_text(page, anchor, x, stop)?;
    put_dashes(page, from, SILENCE, &[Number(from), Number(PLOT_WIDTH)])
}

// Writes the cause and the date at a place.
fn put_text(page: &mut Page, anchor: &[u8], x: u32, stop: &Stop) -> Result<(), Memory>
    ensures { OnOk result (page.new ≡ page.old ++ stop_text anchor.now x stop.now.date stop.now.trap) }
{
    page.fill(
        STOP_TEXT,
        &[
            Raw(anchor),
            Number(x),
            Raw(cause_of(stop.trap)),
            Long(stop.date),
        ],
    )
}

// The words of a cause.
fn cause_of(trap: Option<Trap>) -> &'static [u8]
    ensures { result.now ≡ cause_of trap }
{
    match trap {
        None => b"overrun",
        Some(Trap::Divide) => b"trap divide",
        Some(Trap::Index) => b"trap index",
        Some(Trap::Loop) => b"trap loop",
        Some(Trap::Take) => b"trap take",
    }
}
