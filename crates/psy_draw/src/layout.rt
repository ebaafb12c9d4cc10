//! Where the parts of a picture stand, in pixels.

ghost use Rattle.std.specs.Prelude.{◌≡◌, ◌≤◌};
ghost use Rattle.psy_draw.specs.Places.{width_of};

/// What stays free at the left of the names.
pub const MARGIN: u32 = 12;

/// What stays free at the right of the plot, for the label of a last value.
pub const RIGHT_MARGIN: u32 = 40;

/// What stays free between the names or the least and greatest values and the plot.
pub const GAP: u32 = 8;

/// The width of a letter of a name, in hundredths of a pixel.
pub const NAME_LETTER: u32 = 732;

/// The width of a letter of a table.
pub const TABLE_LETTER: u32 = 671;

/// The width of a letter of a label.
pub const LABEL_LETTER: u32 = 610;

/// The most letters that are measured.
pub const MOST_LETTERS: usize = 100;

/// Where a part of a picture stands: its left upper corner.
#[derive(Clone, Copy, Debug)]
pub struct Corner {
    pub left: u32,
    pub top: u32,
    ghost beside: { 12 ≤ left },
}

/// The width of so many letters, each of so many hundredths of a pixel.
pub fn width_of(letters: usize, letter: u32) -> u32
    requires { letter ≤ NAME_LETTER }
    ensures wide { result ≡ width_of letters letter }
    ensures bounded { result ≤ 732 }
{
    let letters = letters.min(MOST_LETTERS) as u32;
    (letters * letter).div_ceil(100)
}
