//! The values beside a line.

ghost use Rattle.std.specs.Prelude.{◌≡◌, ◌≤◌, ◌+◌, ◌-◌, ◌/◌, ◌++◌, ◌&&◌, decimal, length, nat_le, OnOk};
ghost use Rattle.std.specs.Fmt.{signed_decimal};
ghost use Rattle.psy_draw.specs.Columns.{none_greater, none_less, up_to};
ghost use Rattle.psy_draw.specs.Curves.{holds, side_by};
ghost use Rattle.psy_draw.specs.Labels.{label_text};
ghost use Rattle.psy_draw.specs.Places.{width_of};

use crate::column::Column;
use crate::layout::{LABEL_LETTER, RIGHT_MARGIN, width_of};
use crate::markup::LABEL;
use crate::scale::PLOT_WIDTH;
use itoa::Buffer;
use psy_base::Memory;
use psy_page::Page;
use psy_page::Piece::{Number, Value};

/// What stays free between two labels.
pub const LABEL_GAP: u32 = 4;

/// A label's place: from its left end up to its right end.
#[derive(Clone, Copy, Debug)]
pub struct Extent {
    pub from: u32,
    pub to: u32,
    ghost placed: { from ≤ 1000 },
    ghost wide: { to ≤ 3200 },
}

impl Extent {
    /// The place of a label of this width.
    pub fn new(from: u32, width: u32) -> Extent
        requires from { from ≤ 1000 }
        requires width { width ≤ 2196 }
        ensures { (result.from ≡ from) × (result.to ≡ from + width) }
    {
        Extent {
            from,
            to: from + width,
        }
    }

    /// The place of a label of this width in whose middle x stands, where that isn't before the plot.
    pub fn around(x: u32, width: u32) -> Extent
        requires x { x ≤ 960 }
        requires width { width ≤ 2196 }
        ensures { (result.from ≡ x - width / 2) × (result.to ≡ result.from + width) }
    {
        Extent::new(x.saturating_sub(width / 2), width)
    }

    /// There is room: the labels before it end before it, and it ends within the picture.
    pub fn fits(&self, free: u32) -> bool
        ensures { result ≡ (nat_le free self.now.from && nat_le self.now.to 1000) }
    {
        free <= self.from && self.to <= PLOT_WIDTH + RIGHT_MARGIN
    }

    /// From here on the next label has room.
    pub fn free(&self) -> u32
        ensures { result ≡ self.now.to + LABEL_GAP }
    {
        self.to + LABEL_GAP
    }
}

/// How many letters a value has.
pub fn letters_of(value: i32) -> usize
    ensures { result ≡ length (signed_decimal value) }
{
    Buffer::new().format(value).len()
}

/// How many letters a number has.
pub fn digits_of(number: u64) -> usize
    ensures { result ≡ length (decimal number) }
{
    Buffer::new().format(number).len()
}

/// How wide a value is as a label.
pub fn width(value: i32) -> u32
    ensures wide { result ≡ width_of (length (signed_decimal value)) LABEL_LETTER }
    ensures narrow { result ≤ 732 }
{
    width_of(letters_of(value), LABEL_LETTER)
}

/// How wide a number is as a label.
pub fn digits_width(number: u64) -> u32
    ensures wide { result ≡ width_of (length (decimal number)) LABEL_LETTER }
    ensures narrow { result ≤ 732 }
{
    width_of(digits_of(number), LABEL_LETTER)
}

/// How wide so many letters are as a label.
pub fn letters_width(letters: usize) -> u32
    ensures wide { result ≡ width_of letters LABEL_LETTER }
    ensures narrow { result ≤ 732 }
{
    width_of(letters, LABEL_LETTER)
}

/// On which side of the line a label stands.
#[derive(Clone, Copy, Debug, PartialEq, Eq)]
pub enum Side {
    Over,
    Under,
}

/// The side of a value's label: over the line where the columns up to the label's end have no greater value, else under it
/// where they have no smaller one; none where the line would go through the label.
pub fn side_of(value: i32, columns: &[Column], to: u32) -> Option<Side>
    ensures { result ≡ side_by value columns.now to }
{
    if has_none_greater(value, columns, to) {
        Some(Side::Over)
    } else if has_none_less(value, columns, to) {
        Some(Side::Under)
    } else {
        None
    }
}

/// All columns up to a place have this value alone.
pub fn holds(value: i32, columns: &[Column], to: u32) -> bool
    ensures { result ≡ holds value columns.now to }
{
    has_none_greater(value, columns, to) && has_none_less(value, columns, to)
}

fn has_none_greater(value: i32, columns: &[Column], to: u32) -> bool
    ensures { result ≡ none_greater value (up_to to columns.now) }
{
    columns
        .iter()
        .take_while(|column| column.x <= to)
        .all(|column| column.greatest <= value)
}

fn has_none_less(value: i32, columns: &[Column], to: u32) -> bool
    ensures { result ≡ none_less value (up_to to columns.now) }
{
    columns
        .iter()
        .take_while(|column| column.x <= to)
        .all(|column| value <= column.least)
}

/// Adds the label of a value.
pub fn put_label(page: &mut Page, x: u32, y: u32, value: i32) -> Result<(), Memory>
    ensures { OnOk result (page.new ≡ page.old ++ label_text x y value) }
{
    page.fill(LABEL, &[Number(x), Number(y), Value(value)])
}
