//! The lines of an action graph.

ghost use Rattle.std.specs.Prelude.{◌≡◌, ◌≤◌, length};
ghost use Rattle.psy_base.specs.declared.limits.TheConstants.{WORD_BYTES};
ghost use Rattle.psy_log.specs.Forms.{agent_graph_line, node_line, edge_line};

use crate::line::Line;

/// `agent AGENT NODES EDGES`
pub fn set_agent_graph(line: &mut Line, agent: &[u8], nodes: u32, edges: u32)
    requires { length agent.now ≤ WORD_BYTES }
    ensures { line.new ≡ agent_graph_line agent.now nodes edges }
{
    line.start(b"agent ");
    line.add(agent);
    line.add(b" ");
    line.add_u32(nodes);
    line.add(b" ");
    line.add_u32(edges);
    line.add(b"\n");
}

/// `node NUMBER POINT PHASE BUDGET WORST DUE`
pub fn set_node(
    line: &mut Line,
    number: u32,
    point: u32,
    phase: u64,
    budget: u32,
    worst: u64,
    due: u64,
)
    ensures { line.new ≡ node_line number point phase budget worst due }
{
    line.start(b"node ");
    line.add_u32(number);
    line.add(b" ");
    line.add_u32(point);
    line.add(b" ");
    line.add_u64(phase);
    line.add(b" ");
    line.add_u32(budget);
    line.add(b" ");
    line.add_u64(worst);
    line.add(b" ");
    line.add_u64(due);
    line.add(b"\n");
}

/// `edge FROM TO LEN`
pub fn set_edge(line: &mut Line, from: u32, to: u32, len: u64)
    ensures { line.new ≡ edge_line from to len }
{
    line.start(b"edge ");
    line.add_u32(from);
    line.add(b" ");
    line.add_u32(to);
    line.add(b" ");
    line.add_u64(len);
    line.add(b"\n");
}
