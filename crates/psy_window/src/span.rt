//! Which lengths of a path count.
ghost use Rattle.std.specs.Prelude.{◌≡◌};
ghost use Rattle.psy_window.specs.Table.{last_of};

use psy_base::Edge;

/// Which lengths of a path count.
#[derive(Clone, Copy, Debug, PartialEq, Eq)]
pub enum Span {
    /// Those before the last edge, and that edge's due.
    DueLast,
    /// Those after the first edge.
    FirstFree,
}

/// What the table counts of the last edge of a path.
pub fn last_of(edge: &Edge, span: Span) -> u64
    ensures { result ≡ last_of span edge.now }
{
    match span {
        Span::DueLast => edge.due,
        Span::FirstFree => edge.len,
    }
}
