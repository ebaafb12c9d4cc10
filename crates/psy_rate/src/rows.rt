//! The row of a rate: by how much a path from each node weighs more than the rate by the time until it is due.

ghost use Rattle.std.specs.Prelude.{◌≡◌, ◌⊎◌, ℕ, ◌+◌, ◌*◌, ◌^◌, ◌<◌, ◌≤◌, List, All, MatchBool, MatchOption, length, max, slice_index, slice_set};
ghost use Rattle.psy_base.specs.declared.limits.TheConstants.{BUDGET, EDGES, NODES};
ghost use Rattle.psy_rate.specs.Rows.{IsRow, IsSettled, HasGone, IsGreatest, excess as excess_of};
ghost use Rattle.psy_window.specs.Windows.{IsEdge};

use crate::line::SCALE;
use psy_base::Edge;

/// What an edge gives over the cell of the node where it ends.
fn excess(edge: &Edge, rate: u64, behind: u64) -> u64
    requires weight { edge.now.weight ≤ BUDGET }
    requires behind { behind < 2 ^ 63 }
    ensures { result ≡ excess_of rate edge.now behind }
{
    let weight = SCALE * edge.weight;
    let alone = weight.saturating_sub(rate.saturating_mul(edge.due));
    let before = (weight + behind).saturating_sub(rate.saturating_mul(edge.len));
    alone.max(before)
}

/// The cell of the node where an edge begins grows to what the edge gives, if that is more; whether it did.
fn relax(edge: &Edge, rate: u64, row: &mut [u64]) -> bool
    requires edge { IsEdge (length row.old) edge.now }
    requires small { All (λ cell. cell < 2 ^ 63) row.old }
    ensures { let given = excess_of rate edge.now (slice_index row.old edge.now.to) in
        MatchBool result
        ((slice_index row.old edge.now.from < given) × (row.new ≡ slice_set row.old edge.now.from given))
        ((given ≤ slice_index row.old edge.now.from) × (row.new ≡ row.old)) }
{
    let given = excess(edge, rate, row[edge.to as usize]);
    if given <= row[edge.from as usize] {
        return false;
    }
    row[edge.from as usize] = given;
    true
}

/// The row takes in one edge more, from the last one on. Where a cell grows, the edge is chosen at its node, and the node is
/// told.
fn take_edge(
    edges: &[Edge],
    seen: usize,
    rate: u64,
    row: &mut [u64],
    chosen: &mut [usize],
    last: Option<u32>,
) -> Option<u32>
    requires edges { All (IsEdge (length row.old)) edges.now }
    requires seen { seen < length edges.now }
    requires few { length edges.now ≤ EDGES }
    requires row { (count : ℕ) × (count ≤ NODES) × IsRow edges.now seen rate count row.old }
    requires chosen { length chosen.old ≡ length row.old }
    ensures row { (count : ℕ) → IsRow edges.now seen rate count row.old → IsRow edges.now (seen + 1) rate count row.new }
    ensures gone { (before : List ℕ) → HasGone edges.now seen rate before row.old last → HasGone edges.now (seen + 1) rate before row.new result }
{
    let at = edges.len() - 1 - seen;
    let edge = &edges[at];
    if !relax(edge, rate, row) {
        return last;
    }
    chosen[edge.from as usize] = at;
    Some(edge.from)
}

/// The row takes in each edge, from the last to the first: so it does for paths of one edge more. The answer is the node of
/// the cell that grew last, if one grew. (Nodes are in the order of their points, which actions mostly lead upwards.)
pub fn pass(edges: &[Edge], rate: u64, row: &mut [u64], chosen: &mut [usize]) -> Option<u32>
    requires edges { All (IsEdge (length row.old)) edges.now }
    requires few { length edges.now ≤ EDGES }
    requires row { (count : ℕ) × (count ≤ NODES) × IsRow edges.now 0 rate count row.old }
    requires chosen { length chosen.old ≡ length row.old }
    ensures row { (count : ℕ) → IsRow edges.now 0 rate count row.old → IsRow edges.now 0 rate (count + 1) row.new }
    ensures gone { HasGone edges.now (length edges.now) rate row.old row.new result }
{
    let mut last = None;
    for seen in 0..edges.len() {
        last = take_edge(edges, seen, rate, row, chosen, last);
    }
    last
}

/// The greatest cell.
pub fn greatest(row: &[u64]) -> u64
    ensures { IsGreatest row.now (length row.now) result }
{
    let mut greatest = 0u64;
    for cell in row {
        greatest = greatest.max(*cell);
    }
    greatest
}
