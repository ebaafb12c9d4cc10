//! Few different values.

ghost use Rattle.std.specs.Prelude.{◌≡◌, ◌≤◌, ◌<◌, true, false, fold, length, take};
ghost use Rattle.std.specs.List.{list_any};
ghost use Rattle.std.specs.Ordering.{int_eq};
ghost use Rattle.psy_draw.specs.Columns.{is_few, kept, with_other};

use crate::column::Column;

// The most different values that are few.
const FEW: usize = 8;

// Different values, few of them.
#[derive(Drop)]
struct Few {
    seen: [i32; FEW],
    count: usize,
    ghost bounded: { count ≤ 8 },
}

impl Few {
    // Adds a value, where it isn't there; false where there are too many then.
    fn add(&mut self, value: i32) -> bool
        ensures added { result ≡ true → take self.new.count self.new.seen ≡ with_other (take self.old.count self.old.seen) value }
        ensures many { result ≡ false → 8 < length (with_other (take self.old.count self.old.seen) value) }
    {
        if has(&self.seen[..self.count], value) {
            return true;
        }
        if self.count == FEW {
            return false;
        }
        self.seen[self.count] = value;
        self.count += 1;
        true
    }

    // Adds values, as long as they are few.
    fn add_all(&mut self, values: &[i32]) -> bool
        ensures added { result ≡ true → take self.new.count self.new.seen ≡ fold with_other (take self.old.count self.old.seen) values.now }
        ensures many { result ≡ false → 8 < length (fold with_other (take self.old.count self.old.seen) values.now) }
    {
        for value in values {
            if !self.add(*value) {
                return false;
            }
        }
        true
    }
}

// Is a value among these?
fn has(seen: &[i32], value: i32) -> bool
    ensures { result ≡ list_any (λ w. int_eq w value) seen.now }
{
    seen.contains(&value)
}

// What a column keeps of its values.
fn kept(column: &Column) -> [i32; 4]
    ensures { result ≡ kept column.now }
{
    [column.first, column.least, column.greatest, column.last]
}

/// Are there at most eight different values in these columns?
pub fn is_few(columns: &[Column]) -> bool
    ensures { result ≡ is_few columns.now }
{
    let mut few = Few {
        seen: [0; FEW],
        count: 0,
    };
    for column in columns {
        if !few.add_all(&kept(column)) {
            return false;
        }
    }
    true
}
