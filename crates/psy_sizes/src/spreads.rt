//! How many messages agents send to a stream within its window.

ghost use Rattle.std.specs.Prelude.{◌≡◌, ◌⊎◌, ℕ, ◌+◌, ◌*◌, ◌^◌, ◌<◌, ◌≤◌, [], get_or, length, map, IfOk, IfErr};
ghost use Rattle.std.specs.List.{All};
ghost use Rattle.psy_base.specs.declared.limits.TheConstants.{WINDOW_CELLS};
ghost use Rattle.psy_base.specs.Paths.{FitsFirstFree, IsGreatestWeight};
ghost use Rattle.psy_meaning.specs.KnownWays.{Listed};
ghost use Rattle.psy_meaning.specs.ListedWays.{AreWaysFor};
ghost use Rattle.psy_meaning.specs.QueueSizes.{AreSendEdges, IsSendEdge, IsSpread, IsSpreadBelow, IsWindow, PassesTable};
ghost use Rattle.psy_meaning.specs.Units.{IsBare};
ghost use Rattle.psy_window.specs.Windows.{IsEdge};
ghost use Rattle.psy_graph.specs.Graphs.{AreGraphsBy, HasGraphBy, spot_of};
ghost use Rattle.psy_sizes.specs.declared.fault.SizeFault.TheVariants.{Cells as many_cells, Memory as no_memory};
ghost use Rattle.psy_sizes.specs.Queues.{IsTop, PassesTableOf};
ghost use Rattle.psy_sizes.specs.Sending.{AreCut};

use crate::fault::SizeFault;
use crate::readings::{most, sends_to};
use psy_base::{Edge, Items, Memory, Ways};
use psy_graph::laws::one_graph;
use psy_graph::{Graph, Node};
use psy_lists::push;
use psy_tree::Unit;
use psy_window::{Span, WindowFault, weights};
use std::alloc::Global;

/// An edge of an agent's graph, weighted by the most sends to a stream on its way.
fn send_edge(ways: &Ways, agent: u32, nodes: &[Node], edge: Edge, stream: u32) -> Edge
    requires agent { agent < length ways.now.sends }
    requires points { All (λ node. node.point < length (get_or ways.now.sends agent [])) nodes.now }
    requires cut { AreCut ways.now agent }
    requires edge { IsEdge (length nodes.now) edge }
    ensures sent { IsSendEdge (Listed ways.now) agent stream (map spot_of nodes.now) edge result }
    ensures edge { IsEdge (length nodes.now) result }
{
    let from = nodes[edge.from as usize].point;
    let to = nodes[edge.to as usize].point;
    Edge {
        weight: most(ways, agent, from, to, stream),
        ..edge
    }
}

/// The edges of an agent's graph, weighted so.
fn send_edges(
    alloc: Global,
    ways: &Ways,
    agent: u32,
    graph: &Graph,
    stream: u32,
) -> Result<Items<Edge>, Memory>
    requires agent { agent < length ways.now.sends }
    requires points { All (λ node. node.point < length (get_or ways.now.sends agent [])) graph.now.nodes }
    requires cut { AreCut ways.now agent }
    requires edges { All (IsEdge (length graph.now.nodes)) graph.now.edges }
    ensures sent { IfOk result (AreSendEdges (Listed ways.now) agent stream (map spot_of graph.now.nodes) graph.now.edges) }
    ensures edges { IfOk result (All (IsEdge (length graph.now.nodes))) }
{
    let mut sent = Items::new(alloc);
    'edges: for edge in graph.edges.as_slice() {
        push(
            &mut sent,
            send_edge(ways, agent, graph.nodes.as_slice(), *edge, stream),
        )?;
    }
    Ok(sent)
}

/// The greatest weight of a path that fits the dates of a stream's window, its first action free.
fn greatest(
    alloc: Global,
    edges: &[Edge],
    nodes: u32,
    stream: u32,
    top: u32,
) -> Result<u64, SizeFault>
    requires { All (IsEdge nodes) edges.now }
    ensures greatest { IfOk result (IsGreatestWeight edges.now (FitsFirstFree top)) }
    ensures small { IfOk result (λ n. n < 2 ^ 50) }
    ensures counted { IfOk result (λ _. nodes * (top + 1) ≤ WINDOW_CELLS) }
    ensures cause { IfErr result (λ fault. (fault ≡ no_memory) ⊎ ((fault ≡ many_cells stream) × (WINDOW_CELLS < nodes * (top + 1)))) }
{
    match weights(alloc, edges, nodes, Span::FirstFree, top) {
        Ok(weights) => Ok(weights.as_slice()[top as usize]),
        Err(WindowFault::Cells) => Err(SizeFault::Cells(stream)),
        Err(WindowFault::Memory) => Err(SizeFault::Memory),
    }
}

/// The most messages that the agent of this number sends to a stream by actions that end within its window.
fn spread(
    alloc: Global,
    unit: &Unit,
    graph: &Graph,
    ways: &Ways,
    number: u32,
    stream: u32,
    top: u32,
) -> Result<u64, SizeFault>
    requires bare { IsBare unit.now }
    requires ways { AreWaysFor unit.now ways.now }
    requires number { number < length unit.now.agents }
    requires graph { HasGraphBy unit.now ways.now.nexts number graph.now }
    requires edges { All (IsEdge (length graph.now.nodes)) graph.now.edges }
    requires top { IsTop unit.now (Listed ways.now) ways.now.nexts stream top }
    ensures spread { IfOk result (λ n. (window : ℕ) → IsWindow unit.now (Listed ways.now) ways.now.nexts stream window
        → IsSpread unit.now (Listed ways.now) ways.now.nexts stream window number n) }
    ensures small { IfOk result (λ n. n < 2 ^ 50) }
    ensures counted { IfOk result (λ _. (window : ℕ) → IsWindow unit.now (Listed ways.now) ways.now.nexts stream window
        → length graph.now.nodes * window ≤ WINDOW_CELLS) }
    ensures cause { IfErr result (λ fault. (fault ≡ no_memory)
        ⊎ ((fault ≡ many_cells stream) × ((window : ℕ) → IsWindow unit.now (Listed ways.now) ways.now.nexts stream window
        → WINDOW_CELLS < length graph.now.nodes * window))) }
{
    one_graph();
    let sent = send_edges(alloc, ways, number, graph, stream)?;
    greatest(
        alloc,
        sent.as_slice(),
        graph.nodes.len() as u32,
        stream,
        top,
    )
}

/// The same of an agent that may not send to the stream at all.
fn spread_by(
    alloc: Global,
    unit: &Unit,
    graph: &Graph,
    ways: &Ways,
    number: u32,
    stream: u32,
    top: u32,
) -> Result<u64, SizeFault>
    requires bare { IsBare unit.now }
    requires ways { AreWaysFor unit.now ways.now }
    requires number { number < length unit.now.agents }
    requires graph { HasGraphBy unit.now ways.now.nexts number graph.now }
    requires edges { All (IsEdge (length graph.now.nodes)) graph.now.edges }
    requires top { IsTop unit.now (Listed ways.now) ways.now.nexts stream top }
    ensures spread { IfOk result (λ n. (window : ℕ) → IsWindow unit.now (Listed ways.now) ways.now.nexts stream window
        → IsSpread unit.now (Listed ways.now) ways.now.nexts stream window number n) }
    ensures small { IfOk result (λ n. n < 2 ^ 50) }
    ensures counted { IfOk result (λ _. PassesTableOf unit.now (Listed ways.now) ways.now.nexts stream number → ⊥) }
    ensures cause { IfErr result (λ fault. (fault ≡ no_memory)
        ⊎ ((fault ≡ many_cells stream) × PassesTableOf unit.now (Listed ways.now) ways.now.nexts stream number)) }
{
    if !sends_to(ways, number, stream) {
        return Ok(0);
    }
    spread(alloc, unit, graph, ways, number, stream, top)
}

/// The most messages that all agents together send to a stream by actions that end within its window.
pub fn spreads(
    alloc: Global,
    unit: &Unit,
    graphs: &[Graph],
    ways: &Ways,
    stream: u32,
    top: u32,
) -> Result<u64, SizeFault>
    requires bare { IsBare unit.now }
    requires ways { AreWaysFor unit.now ways.now }
    requires graphs { AreGraphsBy unit.now ways.now.nexts graphs.now }
    requires top { IsTop unit.now (Listed ways.now) ways.now.nexts stream top }
    ensures spreads { IfOk result (λ n. (window : ℕ) → IsWindow unit.now (Listed ways.now) ways.now.nexts stream window
        → IsSpreadBelow unit.now (Listed ways.now) ways.now.nexts stream window (length unit.now.agents) n) }
    ensures counted { IfOk result (λ _. PassesTable unit.now (Listed ways.now) ways.now.nexts stream → ⊥) }
    ensures cause { IfErr result (λ fault. (fault ≡ no_memory)
        ⊎ ((fault ≡ many_cells stream) × PassesTable unit.now (Listed ways.now) ways.now.nexts stream)) }
{
    one_graph();
    let mut sum = 0u64;
    'agents: for number in 0..graphs.len() {
        sum += spread_by(
            alloc,
            unit,
            &graphs[number],
            ways,
            number as u32,
            stream,
            top,
        )?;
    }
    Ok(sum)
}
