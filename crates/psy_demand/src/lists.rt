//! The demands of agents over each length, by their action graphs.
ghost use Rattle.std.specs.Prelude.{◌↔◌, ◌*◌, ◌+◌, ◌<◌, IfOk, IsTrue, length};
ghost use Rattle.std.specs.List.{All, Any};
ghost use Rattle.std.specs.Result.{IsErrOf};
ghost use Rattle.psy_base.specs.declared.limits.TheConstants.{WINDOW_CELLS};
ghost use Rattle.psy_graph.specs.Graphs.{IsSmall};
ghost use Rattle.psy_demand.specs.Criterion.{AreEach, AreWeights, IsDrawn, PassesCells};

use psy_base::Items;
use psy_base::limits::WINDOW_CELLS;
use psy_graph::Graph;
use psy_lists::push;
use psy_window::{Span, WindowFault, weights};
use std::alloc::Global;

// Whether the table of an agent would have too many cells.
fn passes_cells(graph: &Graph, top: u32) -> bool
    requires { IsSmall graph.now }
    ensures { IsTrue result ↔ PassesCells top graph.now }
{
    graph.nodes.len() as u64 * (u64::from(top) + 1) > WINDOW_CELLS
}

/// Whether the table of some agent would have too many cells.
pub fn any_passes(graphs: &[Graph], top: u32) -> bool
    requires { All IsSmall graphs.now }
    ensures { IsTrue result ↔ Any (PassesCells top) graphs.now }
{
    graphs.iter().any(|graph| passes_cells(graph, top))
}

/// The demand of an agent over each length up to this one. `Cells` tells that its table would have too many cells.
pub fn weights_of(alloc: Global, graph: &Graph, top: u32) -> Result<Items<u64>, WindowFault>
    requires edges { IsDrawn graph.now }
    requires small { IsSmall graph.now }
    ensures list { IfOk result (AreWeights top graph.now) }
    ensures cells { IsErrOf result WindowFault.Cells ↔ PassesCells top graph.now }
{
    let nodes = graph.nodes.len() as u32;
    weights(alloc, graph.edges.as_slice(), nodes, Span::DueLast, top)
}

/// The demand of each agent over each length from 0 to `top`: the greatest budget of a path of its graph whose last action is due within the
/// length. `Cells` tells that a table for it would have more than 4,000,000 cells; then none is made.
pub fn weights_of_all(
    alloc: Global,
    graphs: &[Graph],
    top: u32,
) -> Result<Items<Items<u64>>, WindowFault>
    requires edges { All IsDrawn graphs.now }
    requires small { All IsSmall graphs.now }
    ensures lists { IfOk result (AreEach (AreWeights top) graphs.now) }
    ensures cells { IsErrOf result WindowFault.Cells ↔ Any (PassesCells top) graphs.now }
{
    if any_passes(graphs, top) {
        return Err(WindowFault::Cells);
    }
    let mut lists = Items::new(alloc);
    'graphs: for graph in graphs {
        let list = weights_of(alloc, graph, top)?;
        push(&mut lists, list)?;
    }
    Ok(lists)
}
