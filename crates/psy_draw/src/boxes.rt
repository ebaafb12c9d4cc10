//! The lane of a variable with few values: a box for each, with the value in it.

ghost use Rattle.std.specs.Prelude.{◌≡◌, ◌≤◌, ◌++◌, OnOk};
ghost use Rattle.std.specs.Option.{option_copied};
ghost use Rattle.psy_draw.specs.Columns.{end_behind, end_by, voiced_end};
ghost use Rattle.psy_draw.specs.Insides.{box_label, box_labels, box_text, boxes_inside, boxes_path};

use crate::column::Column;
use crate::labels::{self, Extent};
use crate::markup::{PATH, PATH_END, put_dashes};
use crate::scale::PLOT_WIDTH;
use psy_base::Memory;
use psy_page::Page;
use psy_page::Piece::{Number, Raw};

/// The height of a lane.
pub const BOXES_HEIGHT: u32 = 36;

// What stays free at both sides of a value.
const PADDING: u32 = 4;

/// A box from one place to another.
pub const OUTLINE: &[u8] = b"M$ 8H$V28H$Z";

/// A box that is dashed and open at its left, from a place to another.
pub const SILENT_BOX: &[u8] = b"<path class=\"box silent\" d=\"M$ 8H$V28H$\"/>\n";

/// Draws a variable that is silent from a place on.
pub fn draw_boxes(page: &mut Page, columns: &[Column], silent: u32) -> Result<(), Memory>
    requires { silent ≤ 960 }
    ensures { OnOk result (page.new ≡ page.old ++ boxes_inside columns.now silent) }
{
    let end = voiced_end(columns, silent);
    put_outlines(page, b"box", true, columns, end)?;
    put_outlines(page, b"box dense", false, columns, end)?;
    let holes = [Number(end), Number(PLOT_WIDTH), Number(end)];
    put_dashes(page, end, SILENT_BOX, &holes)?;
    put_values(page, columns)
}

/// Where the part of a lane ends in which its variable isn't silent: where it falls silent, or where its last value begins, if that is behind it.
pub fn voiced_end(columns: &[Column], silent: u32) -> u32
    requires { silent ≤ 960 }
    ensures end { result ≡ voiced_end columns.now silent }
    ensures within { result ≤ 960 }
{
    end_behind(columns.last(), silent)
}

fn end_behind(last: Option<&Column>, silent: u32) -> u32
    requires { silent ≤ 960 }
    ensures end { result ≡ end_behind (option_copied last.entry) silent }
    ensures within { result ≤ 960 }
{
    match last {
        Some(last) => last.x.max(silent),
        None => silent,
    }
}

// Draws the boxes of the columns with one value, or of those with more.
fn put_outlines(
    page: &mut Page,
    class: &[u8],
    even: bool,
    columns: &[Column],
    end: u32,
) -> Result<(), Memory>
    ensures { OnOk result (page.new ≡ page.old ++ boxes_path class.now even columns.now end) }
{
    page.fill(PATH, &[Raw(class)])?;
    let mut rest = columns;
    while let Some((column, later)) = rest.split_first() {
        put_box(page, even, column, end_by(later, end))?;
        rest = later;
    }
    page.add(PATH_END)
}

fn put_box(page: &mut Page, even: bool, column: &Column, to: u32) -> Result<(), Memory>
    ensures { OnOk result (page.new ≡ page.old ++ box_text even column.now to) }
{
    if column.is_even() != even {
        return Ok(());
    }
    page.fill(OUTLINE, &[Number(column.x), Number(to), Number(column.x)])
}

// Writes the values, where there is room in their boxes.
fn put_values(page: &mut Page, columns: &[Column]) -> Result<(), Memory>
    ensures { OnOk result (page.new ≡ page.old ++ box_labels columns.now) }
{
    let mut rest = columns;
    while let Some((column, later)) = rest.split_first() {
        put_value(page, column, end_by(later, PLOT_WIDTH))?;
        rest = later;
    }
    Ok(())
}

fn put_value(page: &mut Page, column: &Column, to: u32) -> Result<(), Memory>
    ensures { OnOk result (page.new ≡ page.old ++ box_label column.now to) }
{
    let extent = Extent::new(column.x + PADDING, labels::width(column.first));
    if column.is_even() && extent.to + PADDING <= to {
        labels::put_label(page, extent.from, 22, column.first)
    } else {
        Ok(())
    }
}

/// Where the first of these columns begins, or this.
pub fn end_by(columns: &[Column], end: u32) -> u32
    ensures { result ≡ end_by columns.now end }
{
    match columns.first() {
        Some(column) => column.x,
        None => end,
    }
}
