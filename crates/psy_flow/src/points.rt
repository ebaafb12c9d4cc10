//! The greatest counts behind a point of an agent's body.

ghost use Rattle.std.specs.Prelude.{◌≡◌, ◌<◌, ◌≤◌, length};
ghost use Rattle.psy_meaning.specs.Rest.{rest, rests_of, rests_of_list};
ghost use Rattle.psy_flow.specs.Tops.{called, capped_tops, pieces_tops};
ghost use Rattle.psy_flow.specs.Behind.{IsBehind};

use crate::counts::{tops_of_stmt, tops_of_stmts};
use crate::gauge::Gauge;
use crate::tops::Tops;
use psy_tree::Stmt;

/// What comes of going to an `advance` by its number, counted from 0 in the order of the text.
#[derive(Clone, Copy, Debug)]
pub enum Search {
    /// The greatest counts of what stands behind it.
    Found(Tops),
    /// It stands further on, and has this number there.
    Further(u32),
}

#[cycle(behind)]
fn behind_in(gauge: Gauge, wanted: Option<u32>, row: &[u64], stmt: &Stmt, number: u32) -> Search
    ensures { IsBehind gauge wanted (called row.now) (rests_of stmt.now) number result }
{
    match stmt {
        Stmt::Advance(_) => {
            if number == 0 {
                return Search::Found(Tops::falling(0));
            }
            Search::Further(number - 1)
        }
        Stmt::If(_, branch, other) => {
            let found = behind(gauge, wanted, row, branch.as_slice(), number);
            match other {
                None => found,
                Some(other) => match found {
                    Search::Found(tops) => {
                        Search::Found(tops.and_on(gauge, Tops::falling(gauge.step())))
                    }
                    Search::Further(left) => behind(gauge, wanted, row, other.as_slice(), left),
                },
            }
        }
        Stmt::Timed(_, turn) => match behind(gauge, wanted, row, turn.as_slice(), number) {
            Search::Found(tops) => {
                let again = tops_of_stmt(gauge, wanted, row, stmt).behind(gauge, gauge.step());
                Search::Found(tops.and_on(gauge, again))
            }
            Search::Further(left) => Search::Further(left),
        },
        Stmt::Bounded(_, _, turn) => behind(gauge, wanted, row, turn.as_slice(), number),
        _ => Search::Further(number),
    }
}

#[cycle(behind)]
fn behind(gauge: Gauge, wanted: Option<u32>, row: &[u64], stmts: &[Stmt], number: u32) -> Search
    ensures { IsBehind gauge wanted (called row.now) (rests_of_list stmts.now) number result }
{
    let mut left = number;
    for (place, stmt) in stmts.iter().enumerate() {
        match behind_in(gauge, wanted, row, stmt, left) {
            Search::Found(tops) => {
                let rest = tops_of_stmts(gauge, wanted, row, &stmts[place + 1..]);
                return Search::Found(tops.and_on(gauge, rest));
            }
            Search::Further(next) => left = next,
        }
    }
    Search::Further(left)
}

/// The greatest counts of what stands behind a point: the body for point 0, and else what is behind that
/// `advance`, a jump, and the body again.
pub fn tops_from(gauge: Gauge, wanted: Option<u32>, row: &[u64], stmts: &[Stmt], point: u32) -> Tops
    requires { point ≤ length (rests_of_list stmts.now) }
    ensures { result ≡ capped_tops gauge (pieces_tops gauge wanted (called row.now) (rest stmts.now point)) }
{
    let body = tops_of_stmts(gauge, wanted, row, stmts);
    if point == 0 {
        return body;
    }
    match behind(gauge, wanted, row, stmts, point - 1) {
        Search::Found(tops) => tops.and_on(gauge, body.behind(gauge, gauge.step())),
        Search::Further(_) => body,
    }
}
