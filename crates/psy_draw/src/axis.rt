//! The axis of dates, and the grid.

ghost use Rattle.std.specs.Prelude.{◌≡◌, ◌*◌, ◌<◌, ◌≤◌, ◌++◌, IfOk, OnOk};
ghost use Rattle.psy_draw.specs.Axes.{axis_text, first_tick, grid_text, step_of, tick_at, ticks_of};
ghost use Rattle.psy_draw.specs.Scales.{place_by};
ghost use Rattle.psy_base.specs.declared.limits.TheConstants.{UNTIL};

use crate::frame::LANES_TOP;
use crate::layout::{Corner, MARGIN};
use crate::markup::{GROUP_END, PATH, PATH_END};
use crate::scale::Scale;
use psy_base::Memory;
use psy_page::Page;
use psy_page::Piece::{Number, Raw};
use std::alloc::Global;

/// The height of an axis.
pub const AXIS_HEIGHT: u32 = 30;

/// A line of the grid, from one height to another.
pub const GRID_LINE: &[u8] = b"M$ $V$";

/// An axis begins at a place, with the word `date`.
pub const AXIS: &[u8] = b"<g class=\"axis\" transform=\"translate($ $)\">
<text class=\"word\" x=\"-$\" y=\"19\">date</text>
";

/// A date at a place.
pub const DATE: &[u8] = b"<text x=\"$\" y=\"19\">$</text>\n";

// The longest step from tick to tick.
const LONGEST_STEP: u32 = 100_000;

// The shorter steps.
const STEPS: [u32; 15] = [
    1,
    2,
    5,
    10,
    20,
    50,
    100,
    200,
    500,
    1_000,
    2_000,
    5_000,
    10 * 1_000,
    20_000,
    50_000,
];

// The most steps of the dates that are shown, so that ticks are at least 60 pixels from one another.
const MOST_STEPS: u32 = 16;

// The least step by which so many dates are crossed in at most 16 steps.
fn step_of(dates: u32) -> u32
    ensures least { result ≡ step_of dates }
    ensures enough { dates ≤ UNTIL → dates ≤ 16 * result }
    ensures some { 0 < result }
    ensures short { result ≤ 500000 }
{
    for step in STEPS {
        if dates <= MOST_STEPS * step {
            return step;
        }
    }
    LONGEST_STEP
}

/// The dates at which the grid has lines: multiples of a step.
pub fn ticks_of(alloc: Global, scale: &Scale) -> Result<Vec<u32>, Memory>
    ensures { IfOk result (λ ticks. ticks.items ≡ ticks_of scale.now.from scale.now.to) }
{
    let step = step_of(scale.to - scale.from);
    let first = first_tick(scale.from, step);
    let mut ticks = Vec::new(alloc);
    'ticks: for number in 0..MOST_STEPS + 1 {
        add_tick(&mut ticks, first + number * step, scale.to)?;
    }
    Ok(ticks)
}

// Adds a date, where it isn't past the last one.
fn add_tick(ticks: &mut Vec<u32>, date: u32, last: u32) -> Result<(), Memory>
    ensures { OnOk result (ticks.new.items ≡ ticks.old.items ++ tick_at last date) }
{
    if date <= last {
        ticks.push(date)?;
    }
    Ok(())
}

// The first multiple of a step that isn't before a date.
fn first_tick(from: u32, step: u32) -> u32
    requires some { 0 < step }
    requires short { step ≤ 500000 }
    requires dated { from ≤ UNTIL }
    ensures first { result ≡ first_tick from step }
    ensures near { result ≤ 2000000 }
{
    (from + step - 1) / step * step
}

/// Draws the lines of the grid at some dates, from one height to another.
pub fn draw_grid(
    page: &mut Page,
    scale: &Scale,
    ticks: &[u32],
    left: u32,
    bottom: u32,
) -> Result<(), Memory>
    requires { left ≤ 2000 }
    ensures { OnOk result (page.new ≡ page.old ++ grid_text (place_by scale.now) ticks.now left bottom) }
{
    page.fill(PATH, &[Raw(b"grid")])?;
    for date in ticks {
        let x = left + scale.x(u64::from(*date));
        page.fill(GRID_LINE, &[Number(x), Number(LANES_TOP), Number(bottom)])?;
    }
    page.add(PATH_END)
}

/// Writes some dates, and the word `date`.
pub fn draw_axis(
    page: &mut Page,
    scale: &Scale,
    ticks: &[u32],
    corner: Corner,
) -> Result<(), Memory>
    ensures { OnOk result (page.new ≡ page.old ++ axis_text (place_by scale.now) ticks.now corner.left corner.top) }
{
    let Corner { left, top, .. } = corner;
    page.fill(AXIS, &[Number(left), Number(top), Number(left - MARGIN)])?;
    for date in ticks {
        page.fill(DATE, &[Number(scale.x(u64::from(*date))), Number(*date)])?;
    }
    page.add(GROUP_END)
}
