//! For how many dates a message of a stream may be held.

ghost use Rattle.std.specs.Prelude.{◌*◌, ◌<◌, ◌≤◌, length};
ghost use Rattle.psy_base.specs.declared.limits.TheConstants.{ADVANCE};
ghost use Rattle.psy_clock.specs.declared.clock.TheConstants.{PERIOD};
ghost use Rattle.psy_base.specs.Extremes.{IsGreatest};
ghost use Rattle.psy_meaning.specs.KnownWays.{Listed};
ghost use Rattle.psy_meaning.specs.ListedWays.{AreWaysFor};
ghost use Rattle.psy_meaning.specs.QueueSizes.{MayLast};
ghost use Rattle.psy_meaning.specs.RingSizes.{agent_timing};
ghost use Rattle.psy_meaning.specs.Units.{IsBare};
ghost use Rattle.psy_graph.specs.Graphs.{AreGraphsBy, HasGraphBy};
ghost use Rattle.psy_sizes.specs.Queues.{HasLength, IsTop};

use crate::readings::delay;
use psy_base::limits::WINDOW_CELLS;
use psy_base::{Edge, Ways};
use psy_clock::laws::distances;
use psy_graph::Graph;
use psy_graph::laws::one_graph;
use psy_tree::Unit;

/// The greatest of a first date and of the lengths of some edges, in ticks.
fn longest(first: u32, edges: &[Edge]) -> u64
    ensures { IsGreatest (HasLength first edges.now) result }
{
    let mut longest = u64::from(first);
    'edges: for edge in edges {
        longest = longest.max(edge.len);
    }
    longest
}

/// The most ticks before the first action of the agent of this number, or from one to the next.
fn longest_of_agent(unit: &Unit, graph: &Graph, ways: &Ways, number: u32) -> u64
    requires bare { IsBare unit.now }
    requires ways { AreWaysFor unit.now ways.now }
    requires number { number < length unit.now.agents }
    requires graph { HasGraphBy unit.now ways.now.nexts number graph.now }
    ensures longest { IsGreatest (MayLast (agent_timing unit.now ways.now.nexts number)) result }
    ensures some { 1 ≤ result }
    ensures small { result ≤ ADVANCE * PERIOD }
{
    one_graph();
    distances();
    let agent = &unit.agents.as_slice()[number as usize];
    let first = unit.clocks.as_slice()[agent.clock as usize].first;
    longest(first, graph.edges.as_slice())
}

/// The last date of a stream's window, counted from its first one. It is cut at the limit of a table, which no table of more dates keeps.
pub fn top(unit: &Unit, graphs: &[Graph], ways: &Ways, stream: u32) -> u32
    requires bare { IsBare unit.now }
    requires ways { AreWaysFor unit.now ways.now }
    requires graphs { AreGraphsBy unit.now ways.now.nexts graphs.now }
    requires stream { stream < length unit.now.streams }
    ensures { IsTop unit.now (Listed ways.now) ways.now.nexts stream result }
{
    let delay = delay(ways, stream);
    let decl = &unit.streams.as_slice()[stream as usize];
    let period = unit.clocks.as_slice()[decl.clock as usize].period;
    let lasting = u64::from(decl.keep) * u64::from(period);
    let receiver = decl.receiver;
    let longest = longest_of_agent(unit, &graphs[receiver as usize], ways, receiver);
    let window = delay.saturating_add(lasting + longest - 1);
    (window - 1).min(WINDOW_CELLS) as u32
}
