//! The rate and the intercept of a graph.

ghost use Rattle.std.specs.Prelude.{◌≡◌, ℕ, ◌+◌, ◌*◌, ◌^◌, ◌<◌, ◌≤◌, All, IfOk, length};
ghost use Rattle.psy_base.specs.declared.limits.TheConstants.{BUDGET, EDGES, NODES};
ghost use Rattle.psy_rate.specs.Lines.{IsRateOf};
ghost use Rattle.psy_rate.specs.Trials.{IsTrial};
ghost use Rattle.psy_window.specs.Windows.{IsEdge};

use crate::line::Rate;
use crate::rounds::steeper;
use crate::rows::{greatest, pass};
use psy_base::{Edge, Memory};
use std::alloc::Global;

/// What trying a number as the rate shows.
enum Trial {
    /// It is allowed, with this intercept.
    Allowed(u64),
    /// It is passed, and so is each number below this greater one.
    Passed(u64),
}

/// Tries a number as the rate: the row takes in the edges until no cell grows. From the chosen edges it finds a closed path
/// that passes the number, or else from cells that grow for ever that there is one.
fn try_rate(edges: &[Edge], rate: u64, row: &mut [u64], chosen: &mut [usize]) -> Trial
    requires edges { All (IsEdge (length row.old)) edges.now }
    requires few { length edges.now ≤ EDGES }
    requires nodes { length row.old ≤ NODES }
    requires chosen { length chosen.old ≡ length row.old }
    requires rate { rate < 2 ^ 63 }
    ensures { IsTrial edges.now rate result }
{
    row.fill(0);
    for _ in 0..row.len() + 1 {
        match pass(edges, rate, row, chosen) {
            None => return Trial::Allowed(greatest(row)),
            Some(last) => {
                if let Some(next) = steeper(edges, chosen, last, rate) {
                    return Trial::Passed(next);
                }
            }
        }
    }
    Trial::Passed(rate + 1)
}

/// The line, by a row and by the edges that are chosen: the rate rises only to numbers that a closed path forces.
fn rise(edges: &[Edge], row: &mut [u64], chosen: &mut [usize]) -> Rate
    requires edges { All (IsEdge (length row.old)) edges.now }
    requires few { length edges.now ≤ EDGES }
    requires nodes { length row.old ≤ NODES }
    requires chosen { length chosen.old ≡ length row.old }
    ensures { IsRateOf edges.now result }
{
    let mut rate = 0;
    loop {
        match try_rate(edges, rate, row, chosen) {
            Trial::Allowed(intercept) => return Rate { rate, intercept },
            Trial::Passed(next) => rate = next,
        }
    }
}

/// The line above the demand of an agent, by the edges of its graph: the least rate that its closed paths allow, and the
/// least intercept that its paths then need.
pub fn certify(alloc: Global, edges: &[Edge], nodes: u32) -> Result<Rate, Memory>
    requires edges { All (IsEdge nodes) edges.now }
    requires few { length edges.now ≤ EDGES }
    requires nodes { nodes ≤ NODES }
    ensures line { IfOk result (IsRateOf edges.now) }
    ensures rate { IfOk result (λ line. line.rate ≤ 2 ^ 40) }
    ensures intercept { IfOk result (λ line. line.intercept < 2 ^ 50) }
{
    let mut row = vec![in alloc; 0; nodes as usize]?;
    let mut chosen = vec![in alloc; 0; nodes as usize]?;
    Ok(rise(edges, &mut row, &mut chosen))
}
