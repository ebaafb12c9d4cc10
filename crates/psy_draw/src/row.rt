//! A row of a table.

ghost use Rattle.std.specs.Prelude.{◌≡◌, ◌++◌, OnOk};
ghost use Rattle.psy_log.specs.Forms.{number_or_dash};
ghost use Rattle.psy_draw.specs.Showing.{row_text};
ghost use Rattle.psy_page.specs.Spelling.{spelled};

use psy_base::Memory;
use psy_page::Piece::{Long, Number, Raw, Text};
use psy_page::{Page, Piece};
use std::marker::Model;

/// A row at a height: a name, and two numbers, which end at places.
pub const ROW: &[u8] =
    b"<text y=\"$\">$<tspan class=\"number\" x=\"$\">$</tspan><tspan class=\"number\" x=\"$\">$</tspan></text>\n";

/// A row: a name, a number, and a second number where there is one. Contracts see it as what it says.
#[derive(Debug, Drop)]
pub struct Row<'a> {
    pub name: &'a [u8],
    pub first: u64,
    pub second: Option<u64>,
}

impl<'a> Model for Row<'a> {
    ghost use Rattle.psy_draw.specs.Rows.{Entry};

    ghost Value = { Entry };

    ghost view = { λ r. record { name = r.name.now; first = r.first; second = r.second } };
}

/// The right ends of the two columns of numbers.
#[derive(Clone, Copy, Debug)]
pub struct Ends {
    pub first: u32,
    pub second: u32,
}

/// Adds a row at a height.
pub fn put_row(page: &mut Page, y: u32, ends: Ends, row: &Row) -> Result<(), Memory>
    ensures { OnOk result (page.new ≡ page.old ++ row_text y ends.first ends.second row.now) }
{
    page.fill(
        ROW,
        &[
            Number(y),
            Text(row.name),
            Number(ends.first),
            Long(row.first),
            Number(ends.second),
            second_piece(row.second),
        ],
    )
}

// A second number, or `-` where there is none.
fn second_piece(second: Option<u64>) -> Piece<'static>
    ensures { spelled result ≡ number_or_dash second }
{
    match second {
        Some(number) => Long(number),
        None => Raw(b"-"),
    }
}
