//! What is asserted of a run.
ghost use Rattle.std.specs.Prelude.{◌≡◌};
ghost use Rattle.psy_assert.specs.Spans.{first_date, last_date};

/// How a value stands to another.
#[derive(Clone, Copy, Debug, PartialEq, Eq)]
pub enum Relation {
    /// `==`
    Equal,
    /// `!=`
    Unequal,
    /// `<`
    Less,
    /// `<=`
    AtMost,
    /// `>`
    Greater,
    /// `>=`
    AtLeast,
}

/// What holds between two dates.
#[derive(Clone, Copy, Debug)]
pub enum Claim<'a> {
    /// Each value of the variable stands so to this one, and it has one.
    Values {
        variable: &'a [u8],
        relation: Relation,
        value: i32,
    },
    /// No agent is stopped.
    NoStop,
    /// No message of the stream becomes visible.
    NoMessage {
        stream: &'a [u8],
    },
    /// A message of the stream becomes visible.
    SomeMessage {
        stream: &'a [u8],
    },
}

/// Which dates a claim is for, counted in ticks.
#[derive(Clone, Copy, Debug)]
pub enum Span {
    /// All dates.
    Always,
    /// Those from this one on.
    From { date: u64 },
    /// Those up to this one.
    By { date: u64 },
    /// This one.
    At { date: u64 },
    /// Those from one to another.
    Between { from: u64, to: u64 },
}

impl Span {
    /// The first date.
    pub fn first(&self) -> u64
        ensures { result ≡ first_date self.now }
    {
        match *self {
            Span::Always | Span::By { .. } => 0,
            Span::From { date } | Span::At { date } => date,
            Span::Between { from, .. } => from,
        }
    }

    /// The last date; the greatest number of 64 bits where there is none.
    pub fn last(&self) -> u64
        ensures { result ≡ last_date self.now }
    {
        match *self {
            Span::Always | Span::From { .. } => u64::MAX,
            Span::By { date } | Span::At { date } => date,
            Span::Between { to, .. } => to,
        }
    }
}

/// A claim for some dates.
#[derive(Clone, Copy, Debug)]
pub struct Assertion<'a> {
    pub claim: Claim<'a>,
    pub span: Span,
}
