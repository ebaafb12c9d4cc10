//! The lines above the demands of a program's agents.
ghost use Rattle.std.specs.Prelude.{IfOk};
ghost use Rattle.std.specs.List.{All};
ghost use Rattle.psy_demand.specs.Criterion.{AreEach, IsDrawn};
ghost use Rattle.psy_graph.specs.Graphs.{IsSmall};
ghost use Rattle.psy_plan.specs.Tables.{IsLine};

use psy_base::{Items, Memory};
use psy_graph::Graph;
use psy_lists::push;
use psy_rate::{Rate, certify};
use std::alloc::Global;

// The line above the demand of an agent.
fn line_of(alloc: Global, graph: &Graph) -> Result<Rate, Memory>
    requires edges { IsDrawn graph.now }
    requires few { IsSmall graph.now }
    ensures { IfOk result (IsLine graph.now) }
{
    let nodes = graph.nodes.len() as u32;
    match certify(alloc, graph.edges.as_slice(), nodes) {
        Ok(line) => Ok(line),
        Err(memory) => Err(memory),
    }
}

/// The lines above the demands of all agents, by their graphs, in parts of a cycle, of which it has 1,048,576: rates of at most 2^40, intercepts below
/// 2^50. The only error is want of memory.
pub fn lines_of(alloc: Global, graphs: &Items<Graph>) -> Result<Items<Rate>, Memory>
    requires edges { All IsDrawn graphs.now }
    requires few { All IsSmall graphs.now }
    ensures { IfOk result (AreEach IsLine graphs.now) }
{
    let mut lines = Items::new(alloc);
    'graphs: for graph in graphs.as_slice() {
        let line = line_of(alloc, graph)?;
        push(&mut lines, line)?;
    }
    Ok(lines)
}
