//! The least and the greatest value of a lane.

ghost use Rattle.std.specs.Prelude.{◌≡◌};
ghost use Rattle.psy_draw.specs.Places.{depth_of};
ghost use Rattle.psy_draw.specs.Spans.{bound_letters, span_of, span_with};

use crate::column::Column;
use crate::labels::letters_of;

/// The least and the greatest value of a lane.
#[derive(Clone, Copy, Debug)]
pub struct Span {
    pub least: i32,
    pub greatest: i32,
}

impl Span {
    /// The least and the greatest value of some columns.
    pub fn of(first: &Column, rest: &[Column]) -> Span
        ensures { result ≡ span_of first.now rest.now }
    {
        let mut span = Span {
            least: first.least,
            greatest: first.greatest,
        };
        for column in rest {
            span = span.with(column);
        }
        span
    }

    fn with(self, column: &Column) -> Span
        ensures { result ≡ span_with self column.now }
    {
        Span {
            least: self.least.min(column.least),
            greatest: self.greatest.max(column.greatest),
        }
    }

    /// The letters of the least or the greatest value, whichever has more; 0 where they are one.
    pub fn letters(&self) -> usize
        ensures { result ≡ bound_letters self.now }
    {
        if self.least == self.greatest {
            return 0;
        }
        letters_of(self.least).max(letters_of(self.greatest))
    }

    /// How far below the greatest value's place a value stands, of so many pixels: in the middle where there is but one value.
    pub fn depth(&self, value: i32, height: u32) -> u32
        ensures { result ≡ depth_of self.now.least self.now.greatest value height }
    {
        let whole = u64::from(self.greatest.abs_diff(self.least));
        if whole == 0 {
            return height / 2;
        }
        let part = u64::from(self.greatest.abs_diff(value));
        (part * u64::from(height) / whole).min(u64::from(height)) as u32
    }
}
