//! What is wanted of a text.
ghost use Rattle.std.specs.Bool.{Decides};
ghost use Rattle.psy_cases.specs.Wants.{BeginsWith, EndsWith, IsMetBy};

/// What a text is to be, or to have.
#[derive(Drop)]
pub enum Want {
    /// It is these bytes.
    Exactly(Vec<u8>),
    /// It begins with these bytes.
    Begins(Vec<u8>),
    /// It ends with these bytes.
    Ends(Vec<u8>),
    /// Each line of these bytes is a line of it.
    Has(Vec<u8>),
    /// These bytes stand somewhere in it.
    Holds(Vec<u8>),
    /// So many of its lines begin with these bytes.
    Count(u32, Vec<u8>),
}

// The text begins with this front.
fn begins(text: &[u8], front: &[u8]) -> bool
    ensures { Decides result (BeginsWith text.now front.now) }
{
    text.starts_with(front)
}

// The text ends with this end.
fn ends(text: &[u8], end: &[u8]) -> bool
    ensures { Decides result (EndsWith text.now end.now) }
{
    text.ends_with(end)
}

// The text has this line.
fn has_line(text: &[u8], line: &[u8]) -> bool {
    text.split(|b| *b == b'\n').any(|own| own == line)
}

// The text has each line of these that isn't empty.
fn has_lines(text: &[u8], lines: &[u8]) -> bool {
    lines
        .split(|b| *b == b'\n')
        .all(|line| line.is_empty() || has_line(text, line))
}

// The piece stands somewhere in the text.
fn holds(text: &[u8], piece: &[u8]) -> bool {
    piece.is_empty() || text.windows(piece.len()).any(|own| own == piece)
}

// How many lines of the text begin so.
fn count_of(text: &[u8], front: &[u8]) -> usize {
    text.split(|b| *b == b'\n')
        .filter(|line| line.starts_with(front))
        .count()
}

impl Want {
    /// The text is, or has, what is wanted.
    pub fn is_met(&self, text: &[u8]) -> bool
        ensures { IsMetBy self.now text.now result }
    {
        match self {
            Want::Exactly(bytes) => text == bytes.as_slice(),
            Want::Begins(front) => begins(text, front.as_slice()),
            Want::Ends(end) => ends(text, end.as_slice()),
            Want::Has(lines) => has_lines(text, lines.as_slice()),
            Want::Holds(piece) => holds(text, piece.as_slice()),
            Want::Count(lines, front) => count_of(text, front.as_slice()) == *lines as usize,
        }
    }
}
