//! The greatest weight of a path that fits a length, by a row of the table.
ghost use Rattle.std.specs.Prelude.{◌≡◌, ◌+◌, ◌*◌, ◌^◌, ◌≤◌, All, length};
ghost use Rattle.psy_base.specs.declared.limits.TheConstants.{BUDGET};
ghost use Rattle.psy_base.specs.Paths.{IsGreatestWeight};
ghost use Rattle.psy_window.specs.Table.{IsRow, IsTop, behind};
ghost use Rattle.psy_window.specs.Windows.{IsEdge, Fits};

use crate::span::Span;
use psy_base::Edge;

/// The greatest number of a row.
fn greatest_cell(row: &[u64]) -> u64
    ensures { IsTop (λ n. n) row.now (length row.now) result }
{
    let mut greatest = 0u64;
    for n in row {
        greatest = greatest.max(*n);
    }
    greatest
}

/// The greatest weight of an edge together with the cell of the node where it ends.
fn greatest_behind(row: &[u64], edges: &[Edge], nodes: u32) -> u64
    requires row { length row.now ≡ nodes }
    requires small { All (λ n. n ≤ 2 ^ 52) row.now }
    requires edges { All (IsEdge nodes) edges.now }
    ensures { IsTop (behind row.now) edges.now (length edges.now) result }
{
    let mut greatest = 0u64;
    for edge in edges {
        let weight = edge.weight + row[edge.to as usize];
        greatest = greatest.max(weight);
    }
    greatest
}

/// The greatest weight of a path that fits a length, by the table's row of that length.
pub fn greatest(row: &[u64], nodes: u32, edges: &[Edge], span: Span, within: u32) -> u64
    requires edges { All (IsEdge nodes) edges.now }
    requires row { length row.now ≡ nodes }
    requires cells { IsRow edges.now (length edges.now) nodes span within row.now }
    ensures greatest { IsGreatestWeight edges.now (Fits span within) result }
    ensures small { result ≤ BUDGET * (within + 1) }
{
    match span {
        Span::DueLast => greatest_cell(row),
        Span::FirstFree => greatest_behind(row, edges, nodes),
    }
}
