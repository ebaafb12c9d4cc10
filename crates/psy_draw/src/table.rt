//! A table of the summary.

ghost use Rattle.std.specs.Prelude.{◌≡◌, ◌≤◌, ◌++◌, [], ◌∷◌, OnOk, decimal, length, max};
ghost use Rattle.psy_draw.specs.declared.room.TheConstants.{MOST_ROWS};
ghost use Rattle.psy_log.specs.Forms.{number_or_dash};
ghost use Rattle.psy_draw.specs.Places.{width_of};
ghost use Rattle.psy_draw.specs.Summaries.{first_end, first_letters, full_table, name_letters, second_end, second_letters};
ghost use Rattle.psy_draw.specs.Summaries.{table_height, table_text, table_width, titles_of};

use crate::labels::digits_of;
use crate::layout::{Corner, TABLE_LETTER, width_of};
use crate::markup::GROUP_END;
use crate::room::MOST_ROWS;
use crate::row::{Ends, Row, put_row};
use psy_base::Memory;
use psy_page::Page;
use psy_page::Piece::{Number, Text};
use std::alloc::Global;

/// The height of a row.
pub const ROW_HEIGHT: u32 = 17;

// Where the heads stand.
const HEADS: u32 = 12;

// What stays free between two columns.
const COLUMN_GAP: u32 = 22;

/// The group of a table begins, with the line of its heads, of which two end at places.
pub const TABLE: &[u8] = b"<g class=\"table\" transform=\"translate($ $)\">
<path class=\"rule\" d=\"M0 17H$\"/>
<text class=\"head\" y=\"12\">$<tspan class=\"number\" x=\"$\">$</tspan><tspan class=\"number\" x=\"$\">$</tspan></text>
";

/// The heads of the three columns of a table.
#[derive(Clone, Copy, Debug)]
pub struct Heads {
    pub name: &'static [u8],
    pub first: &'static [u8],
    pub second: &'static [u8],
}

// How many letters the three columns have.
#[derive(Clone, Copy, Debug)]
struct Letters {
    name: usize,
    first: usize,
    second: usize,
}

impl Letters {
    // As many as these and a row have.
    fn with(self, row: &Row) -> Letters
        ensures name { result.name ≡ max self.name (length row.now.name) }
        ensures first { result.first ≡ max self.first (length (decimal row.now.first)) }
        ensures second { result.second ≡ max self.second (length (number_or_dash row.now.second)) }
    {
        Letters {
            name: self.name.max(row.name.len()),
            first: self.first.max(digits_of(row.first)),
            second: self.second.max(second_letters(row.second)),
        }
    }
}

/// A table: its heads, its rows, and how many letters its three columns have.
#[derive(Drop)]
pub struct Table<'a> {
    pub heads: Heads,
    pub rows: Vec<Row<'a>>,
    letters: Letters,
    ghost names: { letters.name ≡ name_letters (titles_of heads) rows.items },
    ghost firsts: { letters.first ≡ first_letters (titles_of heads) rows.items },
    ghost seconds: { letters.second ≡ second_letters (titles_of heads) rows.items },
}

impl<'a> Table<'a> {
    /// A table without rows.
    pub fn new(alloc: Global, heads: Heads) -> Table<'a>
        ensures rows { result.rows.items ≡ [] }
        ensures heads { titles_of result.heads ≡ titles_of heads }
    {
        Table {
            heads,
            rows: Vec::new(alloc),
            letters: Letters {
                name: heads.name.len(),
                first: heads.first.len(),
                second: heads.second.len(),
            },
        }
    }

    /// Adds a row.
    pub fn add(&mut self, row: Row<'a>) -> Result<(), Memory>
        ensures rows { OnOk result (self.new.rows.items ≡ self.old.rows.items ++ row.entry ∷ []) }
        ensures heads { titles_of self.new.heads ≡ titles_of self.old.heads }
    {
        let letters = self.letters.with(&row);
        self.rows.push(row)?;
        self.letters = letters;
        Ok(())
    }

    /// Its width, and 0 where it has no rows.
    pub fn width(&self) -> u32
        ensures wide { result ≡ table_width (titles_of self.now.heads) self.now.rows.items }
        ensures narrow { result ≤ 2500 }
    {
        if self.rows.is_empty() {
            return 0;
        }
        self.ends().second
    }

    /// Its height, and 0 where it has no rows.
    pub fn height(&self) -> u32
        requires { length self.now.rows.items ≤ MOST_ROWS }
        ensures high { result ≡ table_height self.now.rows.items }
        ensures low { result ≤ 100000 }
    {
        if self.rows.is_empty() {
            return 0;
        }
        (self.rows.len() as u32 + 1) * ROW_HEIGHT
    }

    // Where the numbers end.
    fn ends(&self) -> Ends
        ensures first { result.first ≡ first_end (titles_of self.now.heads) self.now.rows.items }
        ensures second { result.second ≡ second_end (titles_of self.now.heads) self.now.rows.items }
        ensures narrow { result.second ≤ 2500 }
    {
        let letters = self.letters;
        let first = width_of(letters.name, TABLE_LETTER)
            + width_of(letters.first, TABLE_LETTER)
            + COLUMN_GAP;
        let second = first + width_of(letters.second, TABLE_LETTER) + COLUMN_GAP;
        Ends { first, second }
    }

    /// Draws it, or nothing where it has no rows.
    pub fn draw(&self, page: &mut Page, corner: Corner) -> Result<(), Memory>
        requires { length self.now.rows.items ≤ MOST_ROWS }
        ensures { OnOk result (page.new ≡ page.old ++ table_text corner.left corner.top (titles_of self.now.heads) self.now.rows.items) }
    {
        if self.rows.is_empty() {
            return Ok(());
        }
        put_table(page, corner, self.heads, self.ends(), self.rows.as_slice())
    }
}

fn put_table(
    page: &mut Page,
    corner: Corner,
    heads: Heads,
    ends: Ends,
    rows: &[Row],
) -> Result<(), Memory>
    requires { length rows.now ≤ MOST_ROWS }
    ensures { OnOk result (page.new ≡ page.old ++ full_table corner.left corner.top (titles_of heads) ends.first ends.second rows.now) }
{
    page.fill(
        TABLE,
        &[
            Number(corner.left),
            Number(corner.top),
            Number(ends.second),
            Text(heads.name),
            Number(ends.first),
            Text(heads.first),
            Number(ends.second),
            Text(heads.second),
        ],
    )?;
    let mut y = HEADS;
    'rows: for row in rows {
        y += ROW_HEIGHT;
        put_row(page, y, ends, row)?;
    }
    page.add(GROUP_END)
}

fn second_letters(second: Option<u64>) -> usize
    ensures { result ≡ length (number_or_dash second) }
{
    match second {
        Some(number) => digits_of(number),
        None => 1,
    }
}
