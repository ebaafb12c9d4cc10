//! How the rows of the table lie that are kept: one goes over the oldest, round and round.
ghost use Rattle.std.specs.Prelude.{◌≡◌, ◌+◌, ◌*◌, ◌<◌, ◌≤◌, ◌++◌, length, take, drop, min};
ghost use Rattle.psy_base.specs.declared.edge.Edge.{Edge};
ghost use Rattle.psy_window.specs.Table.{IsTop, row_after, row_back};

use psy_base::Edge;

/// So many rows of so many nodes each, and which of them the next one goes to.
#[derive(Clone, Copy, Debug)]
pub struct Layout {
    pub nodes: u32,
    pub rows: u64,
    pub next: u64,
}

/// The greatest length of an edge, or `top` where one is greater than that.
pub fn longest(edges: &[Edge], top: u32) -> u64
    ensures { IsTop (λ (e : Edge). min e.len top) edges.now (length edges.now) result }
{
    let mut longest = 0u64;
    for edge in edges {
        longest = longest.max(edge.len.min(u64::from(top)));
    }
    longest
}

/// The row so many lengths back.
pub fn row_back(layout: Layout, back: u64) -> u64
    requires next { layout.next < layout.rows }
    requires back { back ≤ layout.rows }
    ensures { result ≡ row_back layout.rows layout.next back }
{
    if back <= layout.next {
        return layout.next - back;
    }
    layout.rows - (back - layout.next)
}

/// The row behind the next one.
pub fn row_after(layout: Layout) -> u64
    requires { layout.next < layout.rows }
    ensures { result ≡ row_after layout.rows layout.next }
{
    if layout.next + 1 == layout.rows {
        return 0;
    }
    layout.next + 1
}

/// A row goes over the one at a place of the table.
pub fn put_row(table: &mut [u64], place: usize, row: &[u64])
    requires { place + length row.now ≤ length table.old }
    ensures { table.new ≡ take place table.old ++ row.now ++ drop (place + length row.now) table.old }
{
    table[place..place + row.len()].copy_from_slice(row);
}
