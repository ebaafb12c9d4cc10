//! A row of the table of weights, over the rows of shorter lengths.
ghost use Rattle.std.specs.Prelude.{◌≡◌, ℕ, ◌+◌, ◌*◌, ◌<◌, ◌≤◌, All, length, get_or};
ghost use Rattle.psy_base.specs.declared.edge.Edge.{Edge};
ghost use Rattle.psy_window.specs.Table.{IsThrough, IsRow, KeepsRows, Reaches, row_back};
ghost use Rattle.psy_window.specs.Windows.{IsEdge};

use crate::layout::{Layout, row_back};
use crate::span::{Span, last_of};
use psy_base::Edge;

/// The cell of a node in the row so many lengths back.
fn cell(table: &[u64], layout: Layout, back: u64, node: u32) -> u64
    requires next { layout.next < layout.rows }
    requires back { back ≤ layout.rows }
    requires within { row_back layout.rows layout.next back * layout.nodes + node < length table.now }
    ensures { result ≡ get_or table.now (row_back layout.rows layout.next back * layout.nodes + node) 0 }
{
    table[row_back(layout, back) as usize * layout.nodes as usize + node as usize]
}

/// The greatest weight of a path that begins with edge number `at` and is at most `within` long, over the rows
/// of the shorter lengths; 0 where there is none.
fn through(table: &[u64], layout: Layout, edges: &[Edge], at: usize, span: Span, within: u32) -> u64
    requires edges { All (IsEdge layout.nodes) edges.now }
    requires reach { All (Reaches within layout.rows) edges.now }
    requires table { KeepsRows edges.now span within layout table.now }
    requires at { at < length edges.now }
    ensures { (e : Edge) → IsThrough edges.now span within (get_or edges.now at e) result }
{
    let edge = &edges[at];
    let within = u64::from(within);
    if last_of(edge, span) > within {
        return 0;
    }
    if edge.len > within {
        return edge.weight;
    }
    edge.weight + cell(table, layout, edge.len, edge.to)
}

/// The row of a length, over the rows of the shorter ones.
pub fn fill_row(
    row: &mut [u64],
    table: &[u64],
    layout: Layout,
    edges: &[Edge],
    span: Span,
    within: u32,
)
    requires edges { All (IsEdge layout.nodes) edges.now }
    requires reach { All (Reaches within layout.rows) edges.now }
    requires table { KeepsRows edges.now span within layout table.now }
    requires row { length row.old ≡ layout.nodes }
    ensures { IsRow edges.now (length edges.now) layout.nodes span within row.new }
{
    row.fill(0);
    for at in 0..edges.len() {
        let weight = through(table, layout, edges, at, span, within);
        let from = edges[at].from as usize;
        row[from] = row[from].max(weight);
    }
}
