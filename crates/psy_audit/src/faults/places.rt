//! The order of lines.
ghost use Rattle.std.specs.Prelude.{◌≡◌, ◌==◌, ◌||◌, ◌&&◌, Some, nat_lt};
ghost use Rattle.psy_audit.specs.Faults.{comes_behind, is_less, place_of};
ghost use Rattle.psy_audit.specs.Places.{listed, padded};

use crate::said::Said;

// What lines are ordered by, filled up by zeros.
#[derive(Clone, Copy)]
struct Place {
    kind: u64,
    first: u64,
    second: u64,
    third: u64,
}

/// It comes behind a line, where that one says something.
pub fn comes_behind(before: &Option<Said>, said: &Said) -> bool
    ensures { result ≡ comes_behind (Some before.now) said.now }
{
    match before {
        Some(other) => is_behind(other, said),
        None => true,
    }
}

fn is_behind(other: &Said, said: &Said) -> bool
    ensures { result ≡ is_less (place_of other.now) (place_of said.now) }
{
    let before = place_in(other);
    let behind = place_in(said);
    is_less(before, behind)
}

// The place of a line.
fn place_in(said: &Said) -> Place
    ensures { listed result ≡ padded said.now }
{
    match said {
        Said::Acted(act) => Place {
            kind: 0,
            first: u64::from(act.agent),
            second: act.number,
            third: 0,
        },
        Said::Published(publication) => Place {
            kind: 1,
            first: u64::from(publication.variable),
            second: publication.date,
            third: 0,
        },
        Said::Served(segment) => Place {
            kind: 2,
            first: segment.processor,
            second: segment.first,
            third: 0,
        },
        Said::Looked(look) => Place {
            kind: 3,
            first: u64::from(look.agent),
            second: look.number,
            third: look.cycle,
        },
        Said::Ended => Place {
            kind: 4,
            first: 0,
            second: 0,
            third: 0,
        },
    }
}

// At the first place where they differ stands the less.
fn is_less(some: Place, others: Place) -> bool
    ensures { result ≡ is_less (listed some) (listed others) }
{
    let third = less_or(some.third, others.third, false);
    let second = less_or(some.second, others.second, third);
    let first = less_or(some.first, others.first, second);
    less_or(some.kind, others.kind, first)
}

// One number is less, or it is the same and the rest decides.
fn less_or(a: u64, b: u64, rest: bool) -> bool
    ensures { result ≡ (nat_lt a b || a == b && rest) }
{
    a < b || a == b && rest
}
