//! The texts of `check` and `graph`.
ghost use Rattle.std.specs.Prelude.{◌≡◌, ◌≤◌, [], ◌∷◌, length, IfErr, OnOk, OnErr};
ghost use Rattle.psy_base.specs.declared.limits.TheConstants.{WORD_BYTES, NODES};
ghost use Rattle.psy_door.specs.Faults.{Rose};
ghost use Rattle.psy_log.specs.Forms.{line_of, name_of};
ghost use Rattle.psy_log.specs.Writing.{Written};
ghost use Rattle.psy_meaning.specs.Units.{IsBare};
ghost use Rattle.std.specs.List.{All};
ghost use Rattle.psy_graph.specs.Graphs.{IsSmall};
ghost use Rattle.psy_run.specs.Cuts.{IsCutAt, Wrote};
ghost use Rattle.psy_run.specs.Texts.{agent_lines, check_lines, check_text, edge_lines, graph_lines, graph_text, line_of_node, node_lines};
ghost use Rattle.psy_run.specs.Texts.{queue_lines, rate_lines, ring_lines, verdict_line};

use psy_base::{Edge, Items, Sizes};
use psy_door::Sink;
use psy_graph::{Graph, Node};
use psy_log::{Line, Note, WriteFault, write_all_of};
use psy_plan::Extent;
use psy_rate::Rate;
use psy_tree::{AgentDecl, StreamDecl, Unit, VarDecl};

/// Writes the line that says a note.
pub fn write_note<S: Sink>(out: &mut S, note: &Note) -> Result<(), WriteFault>
    requires { length (name_of note.now) ≤ WORD_BYTES }
    ensures counted { S.faults out.old ≤ S.faults out.new }
    ensures failed { OnErr result (Rose (S.faults out.old) (S.faults out.new)) }
    ensures unfailed { OnOk result (S.faults out.new ≡ S.faults out.old) }
    ensures wrote { Wrote (S.held out.old) (S.held out.new) result (line_of note.now ∷ []) }
{
    let mut line = Line::new();
    line.set(note);
    write_all_of(out, line.bytes())
}

// Writes the sizes of the rings of variables, in their order.
fn write_rings<S: Sink>(variables: &[VarDecl], rings: &[u32], out: &mut S) -> Result<(), WriteFault>
    requires { All (λ v. length v.name ≤ WORD_BYTES) variables.now }
    ensures counted { S.faults out.old ≤ S.faults out.new }
    ensures failed { OnErr result (Rose (S.faults out.old) (S.faults out.new)) }
    ensures unfailed { OnOk result (S.faults out.new ≡ S.faults out.old) }
    ensures wrote { Wrote (S.held out.old) (S.held out.new) result (ring_lines variables.now rings.now) }
{
    let count = variables.len().min(rings.len());
    'variables: for number in 0..count {
        let variable = &variables[number];
        let size = rings[number];
        let note = Note::VariableSize {
            variable: variable.name.bytes(),
            size,
        };
        if let Err(fault) = write_note(out, &note) {
            return Err(fault);
        }
    }
    Ok(())
}

// Writes the sizes of the queues of streams, in their order.
fn write_queues<S: Sink>(
    streams: &[StreamDecl],
    queues: &[u32],
    out: &mut S,
) -> Result<(), WriteFault>
    requires { All (λ s. length s.name ≤ WORD_BYTES) streams.now }
    ensures counted { S.faults out.old ≤ S.faults out.new }
    ensures failed { OnErr result (Rose (S.faults out.old) (S.faults out.new)) }
    ensures unfailed { OnOk result (S.faults out.new ≡ S.faults out.old) }
    ensures wrote { Wrote (S.held out.old) (S.held out.new) result (queue_lines streams.now queues.now) }
{
    let count = streams.len().min(queues.len());
    'streams: for number in 0..count {
        let stream = &streams[number];
        let size = queues[number];
        let note = Note::StreamSize {
            stream: stream.name.bytes(),
            size,
        };
        if let Err(fault) = write_note(out, &note) {
            return Err(fault);
        }
    }
    Ok(())
}

// Writes the lines above the demands of agents, in their order.
fn write_rates<S: Sink>(agents: &[AgentDecl], lines: &[Rate], out: &mut S) -> Result<(), WriteFault>
    requires { All (λ agent. length agent.name ≤ WORD_BYTES) agents.now }
    ensures counted { S.faults out.old ≤ S.faults out.new }
    ensures failed { OnErr result (Rose (S.faults out.old) (S.faults out.new)) }
    ensures unfailed { OnOk result (S.faults out.new ≡ S.faults out.old) }
    ensures wrote { Wrote (S.held out.old) (S.held out.new) result (rate_lines agents.now lines.now) }
{
    let count = agents.len().min(lines.len());
    'agents: for number in 0..count {
        let agent = &agents[number];
        let line = &lines[number];
        let note = Note::Rate {
            agent: agent.name.bytes(),
            rate: line.rate,
            intercept: line.intercept,
        };
        if let Err(fault) = write_note(out, &note) {
            return Err(fault);
        }
    }
    Ok(())
}

// Writes over which lengths the demand is met.
fn write_verdict<S: Sink>(extent: Extent, out: &mut S) -> Result<(), WriteFault>
    ensures counted { S.faults out.old ≤ S.faults out.new }
    ensures failed { OnErr result (Rose (S.faults out.old) (S.faults out.new)) }
    ensures unfailed { OnOk result (S.faults out.new ≡ S.faults out.old) }
    ensures wrote { Wrote (S.held out.old) (S.held out.new) result (verdict_line extent ∷ []) }
{
    match extent {
        Extent::Horizon(_) => write_note(out, &Note::Always),
        Extent::LastDate(date) => write_note(
            out,
            &Note::Feasible {
                until: u64::from(date),
            },
        ),
    }
}

// Writes the lines of a check: sizes, the lines above demands, and the verdict.
fn write_check_lines<S: Sink>(
    unit: &Unit,
    sizes: &Sizes,
    lines: &[Rate],
    extent: Extent,
    out: &mut S,
) -> Result<(), WriteFault>
    requires { IsBare unit.now }
    ensures counted { S.faults out.old ≤ S.faults out.new }
    ensures failed { OnErr result (Rose (S.faults out.old) (S.faults out.new)) }
    ensures unfailed { OnOk result (S.faults out.new ≡ S.faults out.old) }
    ensures wrote { Wrote (S.held out.old) (S.held out.new) result (check_lines unit.now sizes.now lines.now extent) }
{
    if let Err(fault) = write_rings(unit.variables.as_slice(), sizes.rings.as_slice(), out) {
        return Err(fault);
    }
    if let Err(fault) = write_queues(unit.streams.as_slice(), sizes.queues.as_slice(), out) {
        return Err(fault);
    }
    if let Err(fault) = write_rates(unit.agents.as_slice(), lines, out) {
        return Err(fault);
    }
    write_verdict(extent, out)
}

/// Writes the sizes of a program's rings and queues, the lines above the demands of its agents, and over which lengths the demand is met.
pub fn write_check<S: Sink>(
    unit: &Unit,
    sizes: &Sizes,
    lines: &[Rate],
    extent: Extent,
    out: &mut S,
) -> Result<(), WriteFault>
    requires { IsBare unit.now }
    ensures counted { S.faults out.old ≤ S.faults out.new }
    ensures failed { OnErr result (Rose (S.faults out.old) (S.faults out.new)) }
    ensures unfailed { OnOk result (S.faults out.new ≡ S.faults out.old) }
    ensures written { Written (S.held out.old) (S.held out.new) result (check_text unit.now sizes.now lines.now extent) }
    ensures cut { IfErr result (λ fault. IsCutAt (S.held out.old) (S.held out.new) (check_lines unit.now sizes.now lines.now extent) fault.taken) }
{
    write_check_lines(unit, sizes, lines, extent, out)
}

// Writes the line of a node, with the greatest cost from its point.
fn write_node<S: Sink>(
    number: u32,
    node: &Node,
    costs: &[u64],
    out: &mut S,
) -> Result<(), WriteFault>
    ensures counted { S.faults out.old ≤ S.faults out.new }
    ensures failed { OnErr result (Rose (S.faults out.old) (S.faults out.new)) }
    ensures unfailed { OnOk result (S.faults out.new ≡ S.faults out.old) }
    ensures wrote { Wrote (S.held out.old) (S.held out.new) result
        (line_of_node costs.now number node.now ∷ []) }
{
    let worst = match costs.get(node.point as usize) {
        Some(worst) => *worst,
        None => 0,
    };
    write_note(
        out,
        &Note::Node {
            number,
            point: node.point,
            phase: node.phase,
            budget: node.budget,
            worst,
            due: node.due,
        },
    )
}

// Writes the lines of an agent's nodes, numbered from 0.
fn write_nodes<S: Sink>(nodes: &[Node], costs: &[u64], out: &mut S) -> Result<(), WriteFault>
    requires { length nodes.now ≤ NODES }
    ensures counted { S.faults out.old ≤ S.faults out.new }
    ensures failed { OnErr result (Rose (S.faults out.old) (S.faults out.new)) }
    ensures unfailed { OnOk result (S.faults out.new ≡ S.faults out.old) }
    ensures wrote { Wrote (S.held out.old) (S.held out.new) result (node_lines costs.now 0 nodes.now) }
{
    'nodes: for (number, node) in nodes.iter().enumerate() {
        if let Err(fault) = write_node(number as u32, node, costs, out) {
            return Err(fault);
        }
    }
    Ok(())
}

// Writes the lines of an agent's edges.
fn write_edges<S: Sink>(edges: &[Edge], out: &mut S) -> Result<(), WriteFault>
    ensures counted { S.faults out.old ≤ S.faults out.new }
    ensures failed { OnErr result (Rose (S.faults out.old) (S.faults out.new)) }
    ensures unfailed { OnOk result (S.faults out.new ≡ S.faults out.old) }
    ensures wrote { Wrote (S.held out.old) (S.held out.new) result (edge_lines edges.now) }
{
    'edges: for edge in edges {
        let note = Note::EdgeOf {
            from: edge.from,
            to: edge.to,
            len: edge.len,
        };
        if let Err(fault) = write_note(out, &note) {
            return Err(fault);
        }
    }
    Ok(())
}

// Writes the lines of an agent: the counts of its graph, its nodes and its edges.
fn write_agent<S: Sink>(
    agent: &AgentDecl,
    graph: &Graph,
    costs: &[u64],
    out: &mut S,
) -> Result<(), WriteFault>
    requires name { length agent.now.name ≤ WORD_BYTES }
    requires small { IsSmall graph.now }
    ensures counted { S.faults out.old ≤ S.faults out.new }
    ensures failed { OnErr result (Rose (S.faults out.old) (S.faults out.new)) }
    ensures unfailed { OnOk result (S.faults out.new ≡ S.faults out.old) }
    ensures wrote { Wrote (S.held out.old) (S.held out.new) result (agent_lines agent.now graph.now costs.now) }
{
    let note = Note::AgentGraph {
        agent: agent.name.bytes(),
        nodes: graph.nodes.len() as u32,
        edges: graph.edges.len() as u32,
    };
    if let Err(fault) = write_note(out, &note) {
        return Err(fault);
    }
    if let Err(fault) = write_nodes(graph.nodes.as_slice(), costs, out) {
        return Err(fault);
    }
    write_edges(graph.edges.as_slice(), out)
}

// Writes the lines of the graphs of a program's agents, with the greatest costs by agent and point.
fn write_graph_lines<S: Sink>(
    unit: &Unit,
    graphs: &[Graph],
    costs: &[Items<u64>],
    out: &mut S,
) -> Result<(), WriteFault>
    requires bare { IsBare unit.now }
    requires small { All IsSmall graphs.now }
    ensures counted { S.faults out.old ≤ S.faults out.new }
    ensures failed { OnErr result (Rose (S.faults out.old) (S.faults out.new)) }
    ensures unfailed { OnOk result (S.faults out.new ≡ S.faults out.old) }
    ensures wrote { Wrote (S.held out.old) (S.held out.new) result (graph_lines unit.now.agents graphs.now costs.now) }
{
    let agents = unit.agents.as_slice();
    let count = agents.len().min(graphs.len()).min(costs.len());
    'agents: for number in 0..count {
        let costs = costs[number].as_slice();
        if let Err(fault) = write_agent(&agents[number], &graphs[number], costs, out) {
            return Err(fault);
        }
    }
    Ok(())
}

/// Writes the graphs of a program's agents, with the greatest costs by agent and point.
pub fn write_graph<S: Sink>(
    unit: &Unit,
    graphs: &[Graph],
    costs: &[Items<u64>],
    out: &mut S,
) -> Result<(), WriteFault>
    requires bare { IsBare unit.now }
    requires small { All IsSmall graphs.now }
    ensures counted { S.faults out.old ≤ S.faults out.new }
    ensures failed { OnErr result (Rose (S.faults out.old) (S.faults out.new)) }
    ensures unfailed { OnOk result (S.faults out.new ≡ S.faults out.old) }
    ensures written { Written (S.held out.old) (S.held out.new) result (graph_text unit.now.agents graphs.now costs.now) }
    ensures cut { IfErr result (λ fault. IsCutAt (S.held out.old) (S.held out.new) (graph_lines unit.now.agents graphs.now costs.now) fault.taken) }
{
    write_graph_lines(unit, graphs, costs, out)
}
