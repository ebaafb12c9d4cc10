//! The graphs of a program's agents.

ghost use Rattle.std.specs.Prelude.{◌≡◌, ◌⊎◌, ◌<◌, length, IfOk, IfErr};
ghost use Rattle.std.specs.List.{All};
ghost use Rattle.psy_meaning.specs.ListedWays.{AreWaysFor};
ghost use Rattle.psy_meaning.specs.RingSizes.{agent_timing};
ghost use Rattle.psy_meaning.specs.Units.{IsBare, IsOfText};
ghost use Rattle.psy_window.specs.Windows.{IsEdge};
ghost use Rattle.psy_graph.specs.declared.fault.GraphFault.TheVariants.{Memory as no_memory};
ghost use Rattle.psy_graph.specs.Graphs.{AreGraphs, AreGraphsBy, HasGraphBy, IsCause, IsCauseBy, IsGraphOf, IsSmall, IsTimed};
ghost use Rattle.psy_graph.specs.Steps.{timing_by};
ghost use Rattle.psy_graph.specs.Faults.{IsFaultOf};

use crate::cycle::modulus;
use crate::edges::draw;
use crate::explore::explore;
use crate::fault::GraphFault;
use crate::graph::Graph;
use crate::times::Times;
use psy_base::{Items, Ways};
use psy_clock::laws::distances;
use psy_flow::laws::listed;
use psy_flow::ways;
use psy_lists::push;
use psy_tree::Unit;
use std::alloc::Global;

/// The graph of an agent, by its number and by when its actions begin and end.
fn graph_by(alloc: Global, times: &Times, agent: u32) -> Result<Graph, GraphFault>
    requires { IsTimed (timing_by times.now) }
    ensures graph { IfOk result (IsGraphOf (timing_by times.now)) }
    ensures small { IfOk result IsSmall }
    ensures edges { IfOk result (λ graph. All (IsEdge (length graph.nodes)) graph.edges) }
    ensures cause { IfErr result (λ fault. (fault ≡ no_memory) ⊎ IsFaultOf (timing_by times.now) agent fault) }
{
    distances();
    let modulus = modulus(times);
    let places = explore(alloc, times, modulus, agent)?;
    draw(alloc, times, modulus, places.as_slice(), agent)
}

/// The graph of an agent of a unit, by its number.
fn graph_of(alloc: Global, unit: &Unit, ways: &Ways, number: u32) -> Result<Graph, GraphFault>
    requires bare { IsBare unit.now }
    requires ways { AreWaysFor unit.now ways.now }
    requires number { number < length unit.now.agents }
    ensures graph { IfOk result (HasGraphBy unit.now ways.now.nexts number) }
    ensures edges { IfOk result (λ graph. All (IsEdge (length graph.nodes)) graph.edges) }
    ensures cause { IfErr result (λ fault. (fault ≡ no_memory) ⊎ IsFaultOf (agent_timing unit.now ways.now.nexts number) number fault) }
{
    let agent = &unit.agents.as_slice()[number as usize];
    let nexts = &ways.nexts.as_slice()[number as usize];
    let times = Times {
        clocks: unit.clocks.as_slice(),
        points: agent.points.as_slice(),
        nexts: nexts.as_slice(),
    };
    graph_by(alloc, &times, number)
}

/// The graphs of all agents of a program in order, by the points that follow each of their points. `Nodes` and `Edges` name the first agent
/// whose graph would have more nodes, or edges, than a graph may have.
pub fn build_by(alloc: Global, unit: &Unit, ways: &Ways) -> Result<Items<Graph>, GraphFault>
    requires bare { IsBare unit.now }
    requires ways { AreWaysFor unit.now ways.now }
    ensures graphs { IfOk result (AreGraphsBy unit.now ways.now.nexts) }
    ensures edges { IfOk result (All (λ graph. All (IsEdge (length graph.nodes)) graph.edges)) }
    ensures cause { IfErr result (λ fault. (fault ≡ no_memory) ⊎ IsCauseBy unit.now ways.now.nexts fault) }
{
    let mut graphs = Items::new(alloc);
    'agents: for number in 0..unit.agents.len() {
        push(&mut graphs, graph_of(alloc, unit, ways, number as u32)?)?;
    }
    Ok(graphs)
}

/// The graphs by the ways of the program's statements, with the same refusals.
pub fn build(alloc: Global, unit: &Unit) -> Result<Items<Graph>, GraphFault>
    requires text { IsOfText unit.now }
    ensures graphs { IfOk result (AreGraphs unit.now) }
    ensures edges { IfOk result (All (λ graph. All (IsEdge (length graph.nodes)) graph.edges)) }
    ensures cause { IfErr result (λ fault. (fault ≡ no_memory) ⊎ IsCause unit.now fault) }
{
    listed();
    let ways = ways(alloc, unit)?;
    build_by(alloc, unit, &ways)
}
