//! The last line of the names of variables without a value.

ghost use Rattle.std.specs.Prelude.{◌≤◌};

/// The last line: its number, 0 before the first, and its letters, as far as they are counted.
#[derive(Clone, Copy, Debug)]
pub struct Line {
    pub number: u32,
    pub letters: usize,
    ghost few: { number ≤ 4000 },
    ghost short: { letters ≤ 400 },
}

impl Line {
    ghost use Rattle.std.specs.Prelude.{◌≡◌};
    ghost use Rattle.psy_draw.specs.Inputs.{last_of, no_line};

    /// No line yet.
    pub fn none() -> Line
        ensures { last_of result ≡ no_line }
    {
        Line {
            number: 0,
            letters: 0,
        }
    }
}
