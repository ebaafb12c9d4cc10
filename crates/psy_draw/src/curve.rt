//! The lane of a variable: a line that steps from value to value.

ghost use Rattle.std.specs.Prelude.{◌≡◌, ◌≤◌, ◌+◌, ◌++◌, None, IfOk, OnOk};
ghost use Rattle.std.specs.Fmt.{signed_decimal};
ghost use Rattle.psy_draw.specs.Curves.{bounds_text, curve_inside, curve_labels, first_other, free_behind, held_to, is_new, label_on};
ghost use Rattle.psy_draw.specs.Curves.{label_side, line_text, stays, step_end, step_text, steps_end, steps_text, stroke_text, tick_text};
ghost use Rattle.psy_draw.specs.Curves.{turn_free, turn_text, turns_at, zero_at, zero_text};
ghost use Rattle.psy_draw.specs.Labels.{label_width};
ghost use Rattle.psy_draw.specs.Spans.{letters_of, y_in};
ghost use Rattle.psy_draw.specs.Strokes.{upright};

use crate::boxes::voiced_end;
use crate::column::Column;
use crate::labels::{self, Extent, Side};
use crate::markup::put_dashes;
use crate::scale::PLOT_WIDTH;
use crate::span::Span;
use psy_base::Memory;
use psy_page::Page;
use psy_page::Piece::{Number, Value};

/// The height of a lane.
pub const CURVE_HEIGHT: u32 = 60;

// A value where the line turns has a label where it holds for so many pixels.
const LEAST_HOLD: u32 = 5;

// Where the greatest value stands, and how far below it the least.
const TOP: u32 = 16;

const DEPTH: u32 = 32;

// Between the place of 0 and those of the least and the greatest value there is room for its number.
const ZERO_ROOM: u32 = 10;

/// A tick at a height, and a value at its left.
pub const TICK: &[u8] = b"<path class=\"tick\" d=\"M-4 $H0\"/>
<text class=\"bound\" x=\"-6\" y=\"$\">$</text>
";

/// A line over the whole plot at the height of 0.
pub const ZERO: &[u8] = b"<path class=\"zero\" d=\"M0 $H$\"/>\n";

/// The line of the values begins at a place.
pub const LINE: &[u8] = b"<path class=\"line\" d=\"M$ $";

/// The line goes ahead to a place.
pub const AHEAD: &[u8] = b"H$";

/// The line goes up or down to a height.
pub const UPRIGHT: &[u8] = b"V$";

/// The line ends at a place.
pub const LINE_END: &[u8] = b"H$\"/>\n";

/// A line that is dashed, from a place at a height to another place.
pub const SILENT_LINE: &[u8] = b"<path class=\"line silent\" d=\"M$ $H$\"/>\n";

/// The letters of the least or the greatest value of some columns, whichever has more; 0 where there is but one value.
pub fn bound_letters(columns: &[Column]) -> usize
    ensures { result ≡ letters_of columns.now }
{
    match columns.split_first() {
        None => 0,
        Some((first, rest)) => Span::of(first, rest).letters(),
    }
}

/// Draws a variable that is silent from a place on.
pub fn draw_curve(page: &mut Page, columns: &[Column], silent: u32) -> Result<(), Memory>
    requires { silent ≤ 960 }
    ensures { OnOk result (page.new ≡ page.old ++ curve_inside columns.now silent) }
{
    if let Some((first, rest)) = columns.split_first() {
        let span = Span::of(first, rest);
        put_bounds(page, span)?;
        put_zero(page, span)?;
        put_line(page, span, first, rest, voiced_end(columns, silent))?;
        put_labels(page, span, columns)?;
    }
    Ok(())
}

// Writes the greatest and the least value at the left of the line, where they differ.
fn put_bounds(page: &mut Page, span: Span) -> Result<(), Memory>
    ensures { OnOk result (page.new ≡ page.old ++ bounds_text span) }
{
    if span.greatest <= span.least {
        return Ok(());
    }
    put_tick(page, TOP, span.greatest)?;
    put_tick(page, TOP + DEPTH, span.least)
}

// Writes a value at the left of the line, behind it a tick.
fn put_tick(page: &mut Page, y: u32, value: i32) -> Result<(), Memory>
    requires { y ≤ 64 }
    ensures { OnOk result (page.new ≡ page.old ++ tick_text y value) }
{
    page.fill(TICK, &[Number(y), Number(y + 3), Value(value)])
}

// Draws a line at 0 where some values are less and some greater, with its number where there is room.
fn put_zero(page: &mut Page, span: Span) -> Result<(), Memory>
    ensures { OnOk result (page.new ≡ page.old ++ zero_text span) }
{
    if span.least >= 0 || span.greatest <= 0 {
        return Ok(());
    }
    put_zero_at(page, y_of(span, 0))
}

// Draws that line at a height, and its number, where there is room.
fn put_zero_at(page: &mut Page, y: u32) -> Result<(), Memory>
    requires { y ≤ 48 }
    ensures { OnOk result (page.new ≡ page.old ++ zero_at y) }
{
    page.fill(ZERO, &[Number(y), Number(PLOT_WIDTH)])?;
    if TOP + ZERO_ROOM <= y && y + ZERO_ROOM <= TOP + DEPTH {
        put_tick(page, y, 0)
    } else {
        Ok(())
    }
}

// Where the line is at a value.
fn y_of(span: Span, value: i32) -> u32
    ensures place { result ≡ y_in span value }
    ensures within { result ≤ 48 }
{
    TOP + span.depth(value, DEPTH).min(DEPTH)
}

// Draws the line, which is dashed from a place on.
fn put_line(
    page: &mut Page,
    span: Span,
    first: &Column,
    rest: &[Column],
    end: u32,
) -> Result<(), Memory>
    ensures { OnOk result (page.new ≡ page.old ++ line_text span first.now rest.now end) }
{
    let y = y_of(span, first.first);
    page.fill(LINE, &[Number(first.x), Number(y)])?;
    let y = put_stroke(page, span, first, y)?;
    let y = put_strokes(page, span, rest, y)?;
    page.fill(LINE_END, &[Number(end)])?;
    let holes = [Number(end), Number(y), Number(PLOT_WIDTH)];
    put_dashes(page, end, SILENT_LINE, &holes)?;
    Ok(())
}

// Draws the line over columns from a height on; to the height where it is then.
fn put_strokes(page: &mut Page, span: Span, columns: &[Column], y: u32) -> Result<u32, Memory>
    ensures { IfOk result (λ end. (end ≡ steps_end span columns.now y) × (page.new ≡ page.old ++ steps_text span columns.now y)) }
{
    let mut rest = columns;
    let mut y = y;
    while let Some((column, later)) = rest.split_first() {
        y = put_step(page, span, column, y)?;
        rest = later;
    }
    Ok(y)
}

// Draws the line over a column from a height on; to the height where it is then.
fn put_step(page: &mut Page, span: Span, column: &Column, y: u32) -> Result<u32, Memory>
    ensures { IfOk result (λ end. (end ≡ step_end span column.now y) × (page.new ≡ page.old ++ step_text span column.now y)) }
{
    if stays(span, column, y) {
        return Ok(y);
    }
    page.fill(AHEAD, &[Number(column.x)])?;
    let y = put_upright(page, y, y_of(span, column.first))?;
    let y = put_stroke(page, span, column, y)?;
    Ok(y)
}

// The line is at this height all through the column.
fn stays(span: Span, column: &Column, y: u32) -> bool
    ensures { result ≡ stays span column.now y }
{
    y_of(span, column.least) == y && y_of(span, column.greatest) == y
}

// Draws the upright stroke over a column's values, from the first by the least and the greatest to the last.
fn put_stroke(page: &mut Page, span: Span, column: &Column, y: u32) -> Result<u32, Memory>
    ensures { IfOk result (λ end. (end ≡ y_in span column.now.last) × (page.new ≡ page.old ++ stroke_text span column.now y)) }
{
    let y = put_upright(page, y, y_of(span, column.least))?;
    let y = put_upright(page, y, y_of(span, column.greatest))?;
    let y = put_upright(page, y, y_of(span, column.last))?;
    Ok(y)
}

// Draws from one height to another.
fn put_upright(page: &mut Page, from: u32, to: u32) -> Result<u32, Memory>
    ensures { IfOk result (λ y. (y ≡ to) × (page.new ≡ page.old ++ upright from to)) }
{
    if from != to {
        page.fill(UPRIGHT, &[Number(to)])?;
    }
    Ok(to)
}

// Writes the values at which the line turns or rests, where there is room.
fn put_labels(page: &mut Page, span: Span, columns: &[Column]) -> Result<(), Memory>
    ensures { OnOk result (page.new ≡ page.old ++ curve_labels span None columns.now 0) }
{
    let mut rest = columns;
    let mut before = None;
    let mut free = 0;
    while let Some((column, later)) = rest.split_first() {
        free = put_turn(
            page,
            span,
            Turn {
                before,
                column,
                later,
            },
            free,
        )?;
        before = Some(column.last);
        rest = later;
    }
    Ok(())
}

// Writes a column's value, where the line comes to it there, and there is room from `free` on; from where there is room then.
fn put_turn(page: &mut Page, span: Span, turn: Turn, free: u32) -> Result<u32, Memory>
    ensures { IfOk result (λ next. (next ≡ turn_free turn.entry.before turn.entry.column.now turn.entry.later.now free)
        × (page.new ≡ page.old ++ turn_text span turn.entry.before turn.entry.column.now turn.entry.later.now free)) }
{
    if is_new(turn.before, turn.column) {
        put_label(page, span, turn, free)
    } else {
        Ok(free)
    }
}

// Does the line come to another value in the column, and has that alone there?
fn is_new(before: Option<i32>, column: &Column) -> bool
    ensures { result ≡ is_new before column.now }
{
    match before {
        Some(before) => column.is_even() && before != column.last,
        None => column.is_even(),
    }
}

// A column, the value before it, and the columns behind it.
#[derive(Clone, Copy)]
struct Turn<'c> {
    before: Option<i32>,
    column: &'c Column,
    later: &'c [Column],
}

impl<'c> Turn<'c> {
    // The line rises to the value and falls behind it, or the other way round, or begins or ends there.
    fn is_extreme(&self) -> bool
        ensures { result ≡ turns_at self.now.column.now.last self.now.before (first_other self.now.column.now.last self.now.later.now) }
    {
        let value = self.column.last;
        turns_at(value, self.before, first_other(value, self.later))
    }

    // As far as this the line holds a value whose label ends there.
    fn held_to(&self, end: u32) -> u32
        requires { end ≡ self.now.column.now.x + 3 + label_width (signed_decimal self.now.column.now.last) }
        ensures { result ≡ held_to self.now.before self.now.column.now self.now.later.now }
    {
        if self.is_extreme() {
            self.column.x + LEAST_HOLD
        } else {
            end
        }
    }
}

// Does the line rise to a value between two others and fall behind it, or the other way round, or begin or end there?
fn turns_at(value: i32, before: Option<i32>, behind: Option<i32>) -> bool
    ensures { result ≡ turns_at value before behind }
{
    match (before, behind) {
        (Some(before), Some(behind)) => (before < value) == (behind < value),
        _ => true,
    }
}

// The first other value, where the columns before it have this one alone.
fn first_other(value: i32, columns: &[Column]) -> Option<i32>
    ensures { result ≡ first_other value columns.now }
{
    for column in columns {
        if column.first != value {
            return Some(column.first);
        }
        if !column.is_even() {
            return None;
        }
    }
    None
}

// Writes a column's value, where there is room from `free` on; from where there is room then.
fn put_label(page: &mut Page, span: Span, turn: Turn, free: u32) -> Result<u32, Memory>
    ensures { IfOk result (λ next.
        (next ≡ free_behind turn.entry.column.now (label_side turn.entry.before turn.entry.column.now turn.entry.later.now free) free)
        × (page.new ≡ page.old ++ label_on span turn.entry.column.now (label_side turn.entry.before turn.entry.column.now turn.entry.later.now free))) }
{
    let value = turn.column.last;
    let extent = Extent::new(turn.column.x + 3, labels::width(value));
    let y = y_of(span, value);
    match label_side(turn, extent, free) {
        Some(Side::Over) => labels::put_label(page, extent.from, y.saturating_sub(4), value)?,
        Some(Side::Under) => labels::put_label(page, extent.from, y + 11, value)?,
        None => return Ok(free),
    }
    Ok(extent.free())
}

// On which side of the line a label has its place, from `free` on; none where it has no room.
fn label_side(turn: Turn, extent: Extent, free: u32) -> Option<Side>
    requires from { extent.from ≡ turn.column.now.x + 3 }
    requires to { extent.to ≡ turn.column.now.x + 3 + label_width (signed_decimal turn.column.now.last) }
    ensures { result ≡ label_side turn.entry.before turn.entry.column.now turn.entry.later.now free }
{
    let Turn { column, later, .. } = turn;
    let value = column.last;
    if extent.fits(free) && labels::holds(value, later, turn.held_to(extent.to)) {
        labels::side_of(value, later, extent.to)
    } else {
        None
    }
}
