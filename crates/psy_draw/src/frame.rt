//! How large the parts of a picture are.

ghost use Rattle.std.specs.Prelude.{◌≡◌, ◌≤◌, ◌+◌, length, nat_le};
ghost use Rattle.psy_draw.specs.Frames.{HaveRoom, bottom_of, inputs_top, left_of, legend_top, longest_bound, picture_height, picture_width, shape_letters};
ghost use Rattle.psy_draw.specs.Frames.{tables_top};
ghost use Rattle.psy_draw.specs.Heads.{longest_name};
ghost use Rattle.psy_draw.specs.Places.{width_of};
ghost use Rattle.psy_draw.specs.Summaries.{tables_height, tables_width};
ghost use Rattle.psy_draw.specs.declared.room.TheConstants.{MOST_LANES};

use crate::axis::AXIS_HEIGHT;
use crate::curve;
use crate::head::TITLE_HEIGHT;
use crate::inputs::Inputs;
use crate::lane::{Lane, Shape};
use crate::layout::{GAP, LABEL_LETTER, MARGIN, NAME_LETTER, RIGHT_MARGIN, width_of};
use crate::legend::LEGEND_HEIGHT;
use crate::scale::PLOT_WIDTH;
use crate::tables::Tables;

/// Where the lanes begin.
pub const LANES_TOP: u32 = TITLE_HEIGHT + AXIS_HEIGHT;

// From this height of the lanes on there is a second axis below them.
const HIGH: u32 = 480;

// The letters for which there is room at least, so that the word `date` has it.
const LEAST_LETTERS: usize = 5;

/// What stays free between two tables.
pub const TABLE_GAP: u32 = 48;

/// Where the parts of a picture stand, in pixels.
#[derive(Clone, Copy, Debug, PartialEq, Eq)]
pub struct Frame {
    /// The width of the picture.
    pub width: u32,
    /// Its height.
    pub height: u32,
    /// The plot's left end.
    pub left: u32,
    /// The lanes' lower end.
    pub bottom: u32,
    /// The upper end of the names without a value.
    pub inputs: u32,
    /// The upper end of the line that tells how the picture is read.
    pub legend: u32,
    /// The tables' upper end.
    pub tables: u32,
    ghost beside: { 12 ≤ left },
    ghost near: { left ≤ 1500 },
}

impl Frame {
    /// The frame in which these lanes have room.
    pub fn of(lanes: &[Lane], inputs: &Inputs, tables: &Tables) -> Frame
        requires lanes { length lanes.now ≤ MOST_LANES }
        requires tables { HaveRoom tables.now }
        ensures bottom { result.bottom ≡ bottom_of lanes.now }
        ensures inputs { result.inputs ≡ inputs_top lanes.now }
        ensures legend { result.legend ≡ legend_top lanes.now inputs.now.lines }
        ensures tables { result.tables ≡ tables_top lanes.now inputs.now.lines }
        ensures high { result.height ≡ picture_height lanes.now inputs.now.lines
            (tables_height tables.now.agents.rows.items tables.now.variables.rows.items tables.now.streams.rows.items) }
        ensures wide { result.width ≡ picture_width lanes.now
            (tables_width tables.now.agents.rows.items tables.now.variables.rows.items tables.now.streams.rows.items) }
        ensures left { result.left ≡ left_of lanes.now }
        ensures room { result.height ≤ 900000 }
        ensures below { result.tables ≤ result.height }
        ensures between { result.legend ≤ result.tables }
    {
        let left = names_width(lanes) + bounds_width(lanes) + MARGIN + 2 * GAP;
        let bottom = bottom_of(lanes);
        let axis = if is_high(bottom) { AXIS_HEIGHT } else { 0 };
        let inputs_top = bottom + axis + MARGIN;
        let legend = inputs_top + inputs.height() + MARGIN;
        let top = legend + LEGEND_HEIGHT + 2 * MARGIN;
        Frame {
            width: (left + PLOT_WIDTH + RIGHT_MARGIN).max(tables.width()),
            height: top + tables.height() + MARGIN,
            left,
            bottom,
            inputs: inputs_top,
            legend,
            tables: top,
        }
    }
}

/// Is there a second axis below the lanes, where they end here?
pub fn is_high(bottom: u32) -> bool
    ensures { result ≡ nat_le 536 bottom }
{
    LANES_TOP + HIGH <= bottom
}

// The width of the longest name, with a processor behind it, where there is one.
fn names_width(lanes: &[Lane]) -> u32
    ensures wide { result ≡ width_of (longest_name lanes.now) NAME_LETTER }
    ensures narrow { result ≤ 732 }
{
    let mut longest = LEAST_LETTERS;
    for lane in lanes {
        longest = lane.letters().max(longest);
    }
    width_of(longest, NAME_LETTER)
}

// The width of the longest value at the left of a line.
fn bounds_width(lanes: &[Lane]) -> u32
    ensures wide { result ≡ width_of (longest_bound lanes.now) LABEL_LETTER }
    ensures narrow { result ≤ 732 }
{
    let mut longest = 0;
    for lane in lanes {
        longest = bound_letters(lane).max(longest);
    }
    width_of(longest, LABEL_LETTER)
}

fn bound_letters(lane: &Lane) -> usize
    ensures { result ≡ shape_letters lane.now.shape }
{
    match &lane.shape {
        Shape::Curve(columns) => curve::bound_letters(columns.as_slice()),
        _ => 0,
    }
}

fn bottom_of(lanes: &[Lane]) -> u32
    requires { length lanes.now ≤ MOST_LANES }
    ensures high { result ≡ bottom_of lanes.now }
    ensures low { result ≤ 300000 }
{
    let mut bottom = LANES_TOP;
    for lane in lanes {
        bottom += lane.height();
    }
    bottom
}
