//! What a lane has in one column of pixels.

ghost use Rattle.std.specs.Prelude.{◌≤◌};

use crate::scale::Scale;

/// The values that a lane has in one column: of them the first, the least, the greatest and the last, and how many there are.
#[derive(Clone, Copy, Debug, PartialEq, Eq)]
pub struct Column {
    /// The column's place, in pixels from the plot's left end.
    pub x: u32,
    /// The date of the first value.
    pub date: u64,
    pub first: i32,
    pub least: i32,
    pub greatest: i32,
    pub last: i32,
    /// How many values there are behind the first, as far as 32 bits reach.
    pub more: u32,
    ghost placed: { x ≤ 960 },
}

impl Column {
    ghost use Rattle.std.specs.Ordering.{int_eq};
    ghost use Rattle.std.specs.Prelude.{◌≡◌, ◌&&◌, ◌++◌, [], ◌∷◌, List, ℕ, ℤ};
    ghost use Rattle.psy_draw.specs.Columns.{Dated, StandsAt, StandsFor, is_even};
    ghost use Rattle.psy_draw.specs.Scales.{place_by};

    /// The column of one value.
    pub fn of(scale: &Scale, date: u64, value: i32) -> Column
        ensures stands { StandsFor (value ∷ []) result }
        ensures told { (result.date ≡ date) × (result.first ≡ value) }
        ensures place { result.x ≡ place_by scale.now date }
    {
        Column {
            x: scale.x(date),
            date,
            first: value,
            least: value,
            greatest: value,
            last: value,
            more: 0,
        }
    }

    /// The column of one more value.
    pub fn and(self, value: i32) -> Column
        ensures stands { (values : List ℤ) → StandsFor values self → StandsFor (values ++ value ∷ []) result }
        ensures place { (place : ℕ → ℕ) (values : List Dated) (v : Dated) → StandsAt place values self → StandsAt place (values ++ v ∷ []) result }
    {
        Column {
            x: self.x,
            date: self.date,
            first: self.first,
            least: self.least.min(value),
            greatest: self.greatest.max(value),
            last: value,
            more: self.more.saturating_add(1),
        }
    }

    /// All its values are this one.
    pub fn is_all(&self, value: i32) -> bool
        ensures { result ≡ (is_even self.now && int_eq value self.now.first) }
    {
        self.is_even() && value == self.first
    }

    /// All its values are one.
    pub fn is_even(&self) -> bool
        ensures { result ≡ is_even self.now }
    {
        self.greatest <= self.least
    }
}
