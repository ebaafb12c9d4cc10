//! The graph of the places where an agent's actions start.

ghost use Rattle.std.specs.Prelude.{◌≡◌, ◌⊎◌, ℕ, ◌+◌, ◌*◌, ◌<◌, ◌≤◌, [], ◌∷◌, ◌++◌, length, map, IfOk, OnOk, IfErr};
ghost use Rattle.psy_base.specs.declared.limits.TheConstants.{EDGES, NODES};
ghost use Rattle.psy_meaning.specs.Timing.{following, least, end_date};
ghost use Rattle.psy_graph.specs.declared.fault.GraphFault.TheVariants.{Edges as many_edges, Memory as no_memory};
ghost use Rattle.psy_graph.specs.Graphs.{IsTimed};
ghost use Rattle.psy_graph.specs.Steps.{timing_by, IsModulus};
ghost use Rattle.psy_graph.specs.Places.{ArePlaces, AreNear};
ghost use Rattle.psy_graph.specs.Drawn.{place_of, node_of, edges_from, first_edges, drawn};

use crate::fault::GraphFault;
use crate::graph::{Graph, Node};
use crate::place::{Place, seek};
use crate::times::Times;
use psy_base::limits::EDGES;
use psy_base::{Edge, Items, Memory};
use psy_clock::laws::distances;
use std::alloc::Global;

/// The least of some numbers.
fn least_of(numbers: &[u64]) -> u64
    requires { 1 ≤ length numbers.now }
    ensures { result ≡ least numbers.now }
{
    let mut least = numbers[0];
    'numbers: for number in numbers {
        least = least.min(*number);
    }
    least
}

/// The edges of a node, by the points that may follow and the dates at which they are reached.
fn add_edges(
    edges: &mut Items<Edge>,
    times: &Times,
    modulus: u64,
    places: &[Place],
    from: u32,
    node: Node,
    ends: &[u64],
) -> Result<(), Memory>
    requires timed { IsTimed (timing_by times.now) }
    requires modulus { IsModulus (timing_by times.now) modulus }
    requires places { ArePlaces (timing_by times.now) places.now }
    requires few { length places.now ≤ NODES }
    requires near { AreNear places.now }
    requires from { from < length places.now }
    requires node { node ≡ node_of (timing_by times.now) (place_of places.now from) }
    requires ends { ends.now ≡ map (end_date (timing_by times.now) node.phase) (following (timing_by times.now) node.point) }
    ensures { OnOk result (edges.new ≡ edges.old ++ edges_from (timing_by times.now) places.now from) }
{
    distances();
    let points = times.next(node.point);
    'points: for k in 0..points.len() {
        let place = Place {
            point: points[k],
            phase: ends[k] % modulus,
        };
        let edge = Edge {
            from,
            to: seek(places, place) as u32,
            len: ends[k] - node.phase,
            due: node.due,
            weight: u64::from(node.budget),
        };
        edges.push(edge)?;
    }
    Ok(())
}

/// The node of a place, and its edges.
fn add_node(
    graph: &mut Graph,
    alloc: Global,
    times: &Times,
    modulus: u64,
    places: &[Place],
    from: u32,
) -> Result<(), Memory>
    requires timed { IsTimed (timing_by times.now) }
    requires modulus { IsModulus (timing_by times.now) modulus }
    requires places { ArePlaces (timing_by times.now) places.now }
    requires few { length places.now ≤ NODES }
    requires near { AreNear places.now }
    requires from { from < length places.now }
    ensures nodes { OnOk result (graph.new.nodes ≡ graph.old.nodes ++ node_of (timing_by times.now) (place_of places.now from) ∷ []) }
    ensures edges { OnOk result (graph.new.edges ≡ graph.old.edges ++ edges_from (timing_by times.now) places.now from) }
{
    distances();
    let place = places[from as usize];
    let ends = times.ends(alloc, place.point, place.phase)?;
    let node = Node {
        point: place.point,
        phase: place.phase,
        due: least_of(ends.as_slice()) - place.phase,
        budget: times.budget(place.point),
    };
    graph.nodes.push(node)?;
    add_edges(
        &mut graph.edges,
        times,
        modulus,
        places,
        from,
        node,
        ends.as_slice(),
    )
}

/// The graph of all places where the actions of an agent start.
pub fn draw(
    alloc: Global,
    times: &Times,
    modulus: u64,
    places: &[Place],
    agent: u32,
) -> Result<Graph, GraphFault>
    requires timed { IsTimed (timing_by times.now) }
    requires modulus { IsModulus (timing_by times.now) modulus }
    requires places { ArePlaces (timing_by times.now) places.now }
    requires few { length places.now ≤ NODES }
    requires near { AreNear places.now }
    ensures graph { IfOk result (λ graph. graph ≡ drawn (timing_by times.now) places.now) }
    ensures few { IfOk result (λ graph. length graph.edges ≤ EDGES) }
    ensures cause { IfErr result (λ fault. (fault ≡ no_memory)
        ⊎ ((fault ≡ many_edges agent) × (EDGES < length (first_edges (timing_by times.now) places.now (length places.now))))) }
{
    let mut graph = Graph {
        nodes: Items::new(alloc),
        edges: Items::new(alloc),
    };
    'places: for from in 0..places.len() {
        if graph.edges.len() + times.next(places[from].point).len() > EDGES as usize {
            return Err(GraphFault::Edges(agent));
        }
        add_node(&mut graph, alloc, times, modulus, places, from as u32)?;
    }
    Ok(graph)
}
