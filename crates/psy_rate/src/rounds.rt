//! A closed path of chosen edges, from which a greater rate follows.

ghost use Rattle.std.specs.Prelude.{◌≡◌, ℕ, ◌+◌, ◌*◌, ◌^◌, ◌<◌, ◌≤◌, List, All, IfSome, MatchOption, length};
ghost use Rattle.std.specs.List.{Contains};
ghost use Rattle.psy_base.specs.declared.edge.Edge.{Edge as Arc};
ghost use Rattle.psy_base.specs.declared.limits.TheConstants.{BUDGET, NODES};
ghost use Rattle.psy_rate.specs.Followed.{IsChosen, IsFollowed, IsLoop, IsSteeper, IsWeighed};
ghost use Rattle.psy_rate.specs.Lines.{end_of};
ghost use Rattle.psy_rate.specs.Trials.{IsPassed};
ghost use Rattle.psy_window.specs.Windows.{IsEdge};

use crate::line::SCALE;
use psy_base::Edge;

/// The edge that was chosen last at a node; None exactly where there is none. Where none was, the number of the first edge stands there, which
/// may begin elsewhere.
fn chosen_at(edges: &[Edge], chosen: &[usize], node: u32) -> Option<Edge>
    ensures listed { IfSome result (Contains edges.now) }
    ensures chosen { MatchOption result ((edge : Arc) → IsChosen edges.now chosen.now node edge → ⊥) (IsChosen edges.now chosen.now node) }
{
    let at = chosen.get(node as usize).copied()?;
    let edge = edges.get(at).copied()?;
    if edge.from == node { Some(edge) } else { None }
}

/// The node after so many chosen edges; None exactly where they don't lead so far.
fn follow(edges: &[Edge], chosen: &[usize], from: u32, steps: usize) -> Option<u32>
    ensures { MatchOption result ((path : List Arc) → IsFollowed edges.now chosen.now from path → length path ≡ steps → ⊥)
        (λ node. (path : List Arc) × IsFollowed edges.now chosen.now from path × (length path ≡ steps) × (end_of from path ≡ node)) }
{
    let mut node = from;
    for _ in 0..steps {
        node = chosen_at(edges, chosen, node)?.to;
    }
    Some(node)
}

/// What a closed path weighs, and how long it is; where that is more than a number can tell, the greatest number.
#[derive(Clone, Copy)]
struct Round {
    weight: u64,
    len: u64,
}

/// Once round, along chosen edges, from a node back to it; None exactly where they don't lead back to it in as many edges as there are nodes.
fn go_round(edges: &[Edge], chosen: &[usize], start: u32) -> Option<Round>
    requires edges { All (IsEdge (length chosen.now)) edges.now }
    requires nodes { length chosen.now ≤ NODES }
    ensures { MatchOption result ((path : List Arc) → IsLoop edges.now chosen.now start path → length path ≤ length chosen.now → ⊥)
        (λ round. (path : List Arc) × IsWeighed edges.now chosen.now start round.weight round.len path) }
{
    let mut node = start;
    let mut weight = 0;
    let mut len = 0u64;
    for step in 0..chosen.len() {
        let edge = chosen_at(edges, chosen, node)?;
        weight += edge.weight;
        len = len.saturating_add(edge.len);
        node = edge.to;
        if node == start {
            return Some(Round { weight, len });
        }
    }
    None
}

/// The least number that a closed path of chosen edges allows, to which these lead from a node and which is steeper than a rate; None exactly where
/// there is no such path.
pub fn steeper(edges: &[Edge], chosen: &[usize], from: u32, rate: u64) -> Option<u64>
    requires edges { All (IsEdge (length chosen.now)) edges.now }
    requires nodes { length chosen.now ≤ NODES }
    ensures passed { IfSome result (IsPassed edges.now rate) }
    ensures steeper { MatchOption result ((path : List Arc) → IsSteeper edges.now chosen.now from rate path → ⊥)
        (λ next. (path : List Arc) × IsSteeper edges.now chosen.now from rate path) }
{
    let start = follow(edges, chosen, from, chosen.len())?;
    let round = go_round(edges, chosen, start)?;
    let next = (SCALE * round.weight).div_ceil(round.len);
    if next > rate { Some(next) } else { None }
}
