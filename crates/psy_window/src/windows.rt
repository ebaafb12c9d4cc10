//! The greatest weights of an agent's paths, by the length that they fit.
ghost use Rattle.std.specs.Prelude.{◌≡◌, ℕ, ◌+◌, ◌*◌, ◌^◌, ◌<◌, ◌≤◌, ◌↔◌, ◌++◌, [], IfOk, OnOk, All, length, slice_index};
ghost use Rattle.std.specs.Result.{IsErrOf};
ghost use Rattle.psy_base.specs.declared.limits.TheConstants.{WINDOW_CELLS};
ghost use Rattle.psy_base.specs.Paths.{IsGreatestWeight};
ghost use Rattle.psy_window.specs.Windows.{IsEdge, Fits};
ghost use Rattle.psy_window.specs.Table.{Reaches};

use crate::fault::WindowFault;
use crate::greatest::greatest;
use crate::layout::{Layout, longest, put_row, row_after};
use crate::span::Span;
use crate::table::fill_row;
use psy_base::limits::WINDOW_CELLS;
use psy_base::{Edge, Items, Memory};
use std::alloc::Global;

/// The weights of the lengths from 0 to `top`, each by its row, which then goes to the table.
fn add_weights(
    weights: &mut Vec<u64>,
    table: &mut [u64],
    row: &mut [u64],
    layout: Layout,
    edges: &[Edge],
    span: Span,
    top: u32,
) -> Result<(), Memory>
    requires edges { All (IsEdge layout.nodes) edges.now }
    requires cells { layout.nodes * (top + 1) ≤ WINDOW_CELLS }
    requires reach { All (Reaches top layout.rows) edges.now }
    requires next { layout.next < layout.rows }
    requires row { length row.old ≡ layout.nodes }
    requires table { length table.old ≡ layout.rows * layout.nodes }
    requires weights { weights.old.items ≡ [] }
    ensures length { OnOk result (length weights.new.items ≡ top + 1) }
    ensures greatest { OnOk result ((within : ℕ) → within < top + 1 → IsGreatestWeight edges.now (Fits span within) (slice_index weights.new.items within)) }
    ensures small { OnOk result (All (λ w. w < 2 ^ 50) weights.new.items) }
{
    let mut next = layout.next;
    for within in 0..top as usize + 1 {
        let layout = Layout { next, ..layout };
        fill_row(row, table, layout, edges, span, within as u32);
        weights.push(greatest(row, layout.nodes, edges, span, within as u32))?;
        put_row(table, next as usize * layout.nodes as usize, row);
        next = row_after(layout);
    }
    Ok(())
}

/// The weights, by a table that keeps as many rows as an edge can lead back over.
fn by_table(
    alloc: Global,
    edges: &[Edge],
    nodes: u32,
    span: Span,
    top: u32,
) -> Result<Items<u64>, Memory>
    requires edges { All (IsEdge nodes) edges.now }
    requires cells { nodes * (top + 1) ≤ WINDOW_CELLS }
    ensures length { IfOk result (λ ws. length ws ≡ top + 1) }
    ensures greatest { IfOk result (λ ws. (within : ℕ) → within < top + 1 → IsGreatestWeight edges.now (Fits span within) (slice_index ws within)) }
    ensures small { IfOk result (All (λ w. w < 2 ^ 50)) }
{
    let layout = Layout {
        nodes,
        rows: longest(edges, top).max(1),
        next: 0,
    };
    let mut weights = Vec::with_capacity(alloc, top as usize + 1)?;
    let mut table = vec![in alloc; 0; layout.rows as usize * nodes as usize]?;
    let mut row = vec![in alloc; 0; nodes as usize]?;
    add_weights(&mut weights, &mut table, &mut row, layout, edges, span, top)?;
    Ok(Items::from_vec(weights))
}

/// The greatest weight of a path that fits a length, at each length from 0 to `top`. It refuses a table of too many
/// cells, one for each node and length, before it makes it; at a time it keeps as many rows of it as the longest edge
/// leads back over, and the one that it makes.
pub fn weights(
    alloc: Global,
    edges: &[Edge],
    nodes: u32,
    span: Span,
    top: u32,
) -> Result<Items<u64>, WindowFault>
    requires { All (IsEdge nodes) edges.now }
    ensures length { IfOk result (λ ws. length ws ≡ top + 1) }
    ensures greatest { IfOk result (λ ws. (within : ℕ) → within < top + 1 → IsGreatestWeight edges.now (Fits span within) (slice_index ws within)) }
    ensures small { IfOk result (All (λ w. w < 2 ^ 50)) }
    ensures cells { IsErrOf result WindowFault.Cells ↔ (WINDOW_CELLS < nodes * (top + 1)) }
{
    if u64::from(nodes) * (u64::from(top) + 1) > WINDOW_CELLS {
        return Err(WindowFault::Cells);
    }
    Ok(by_table(alloc, edges, nodes, span, top)?)
}
