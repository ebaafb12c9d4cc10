//! Draws a lane.

ghost use Rattle.std.specs.Prelude.{◌≡◌, ◌≤◌, ◌++◌, OnOk};
ghost use Rattle.psy_draw.specs.Drawing.{drawn_lane, lane_head};
ghost use Rattle.psy_draw.specs.Insides.{lane_inside, shape_inside};
ghost use Rattle.psy_draw.specs.Places.{silent_place};
ghost use Rattle.psy_draw.specs.Scales.{place_by};

use crate::boxes::draw_boxes;
use crate::curve::draw_curve;
use crate::home::ON;
use crate::hover::tell;
use crate::lane::{Lane, Shape};
use crate::layout::{Corner, MARGIN};
use crate::markup::GROUP_END;
use crate::messages::draw_messages;
use crate::scale::{PLOT_WIDTH, Scale};
use crate::stops::draw_stop;
use psy_base::Memory;
use psy_page::Page;
use psy_page::Piece::{Labelled, Number, Raw, Text};

/// The group of a lane begins: its line at the bottom, and its name, with the processor, where there is one.
pub const LANE: &[u8] = b"<g class=\"$\" transform=\"translate($ $)\">
<path class=\"rule\" d=\"M-$ $H$\"/>
<text class=\"name\" x=\"-$\" y=\"$\">$$</text>
";

/// Draws a lane at a place; its parts tell what they are, where that is asked for.
pub fn draw_lane(
    page: &mut Page,
    scale: &Scale,
    corner: Corner,
    lane: &Lane,
    tells: bool,
) -> Result<(), Memory>
    ensures { OnOk result (page.new ≡ page.old ++ drawn_lane (place_by scale.now) tells corner.left corner.top lane.now) }
{
    open_lane(page, corner, lane)?;
    put_inside(page, scale, lane, tells)?;
    page.add(GROUP_END)
}

// Begins a lane.
fn open_lane(page: &mut Page, corner: Corner, lane: &Lane) -> Result<(), Memory>
    ensures { OnOk result (page.new ≡ page.old ++ lane_head corner.left corner.top lane.now) }
{
    let edge = corner.left - MARGIN;
    let height = lane.height();
    page.fill(
        LANE,
        &[
            Raw(lane.class()),
            Number(corner.left),
            Number(corner.top),
            Number(edge),
            Number(height),
            Number(PLOT_WIDTH),
            Number(edge),
            Number(height / 2 + 4),
            Text(lane.name),
            Labelled(ON, lane.processor()),
        ],
    )
}

// Draws what stands in a lane.
fn put_inside(page: &mut Page, scale: &Scale, lane: &Lane, tells: bool) -> Result<(), Memory>
    ensures { OnOk result (page.new ≡ page.old ++ lane_inside (place_by scale.now) tells lane.now) }
{
    draw_shape(page, &lane.shape, silent_place(scale, lane))?;
    if tells { tell(page, lane) } else { Ok(()) }
}

// The place from which on a lane is silent, or the plot's right end.
fn silent_place(scale: &Scale, lane: &Lane) -> u32
    ensures place { result ≡ silent_place (place_by scale.now) lane.now.silent }
    ensures within { result ≤ 960 }
{
    match lane.silent {
        Some(date) => scale.x(date),
        None => PLOT_WIDTH,
    }
}

fn draw_shape(page: &mut Page, shape: &Shape, silent: u32) -> Result<(), Memory>
    requires { silent ≤ 960 }
    ensures { OnOk result (page.new ≡ page.old ++ shape_inside shape.now silent) }
{
    match shape {
        Shape::Stop(stop) => draw_stop(page, stop),
        Shape::Curve(columns) => draw_curve(page, columns.as_slice(), silent),
        Shape::Boxes(columns) => draw_boxes(page, columns.as_slice(), silent),
        Shape::Marks(columns) => draw_messages(page, columns.as_slice()),
    }
}
