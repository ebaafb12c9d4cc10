//! The rings of temporal variables.

ghost use Rattle.std.specs.Prelude.{◌≡◌, ◌⊎◌, ℕ, ◌≤◌, ◌<◌, [], get_or, length, IfOk, IfErr};
ghost use Rattle.std.specs.Int.{IsGcd};
ghost use Rattle.std.specs.List.{All};
ghost use Rattle.psy_base.specs.declared.limits.TheConstants.{RING};
ghost use Rattle.psy_base.specs.Extremes.{IsMost};
ghost use Rattle.psy_clock.specs.Dates.{IsClock};
ghost use Rattle.psy_meaning.specs.KnownWays.{Listed};
ghost use Rattle.psy_meaning.specs.ListedWays.{AreWaysFor};
ghost use Rattle.psy_meaning.specs.RingSizes.{IsRingSize, AreRings};
ghost use Rattle.psy_meaning.specs.Units.{IsBare};
ghost use Rattle.psy_graph.specs.Graphs.{AreGraphsBy, HasGraphBy};
ghost use Rattle.psy_sizes.specs.declared.fault.SizeFault.TheVariants.{LargeRing as large_ring, Memory as no_memory};
ghost use Rattle.psy_sizes.specs.Faults.{IsFaultBy};
ghost use Rattle.psy_sizes.specs.Passing.{HasDatesAt, HasDatesOf, HasDatesBefore};

use crate::divisors::shared_divisor;
use crate::fault::SizeFault;
use crate::readings::looks;
use crate::windows::most_between;
use psy_base::limits::RING;
use psy_base::{Items, Ways};
use psy_clock::Clock;
use psy_graph::laws::one_graph;
use psy_graph::{Graph, Node};
use psy_lists::push;
use psy_tree::Unit;
use std::alloc::Global;

/// The most dates of a clock that stand between the start and the deadline of an action of these nodes of an agent that may look at a
/// variable, where this is what the clock's period shares with the cycle of the agent.
fn most_of_nodes(
    ways: &Ways,
    agent: u32,
    nodes: &[Node],
    variable: u32,
    clock: Clock,
    shared: u32,
) -> u64
    requires agent { agent < length ways.now.looks }
    requires head { 1 ≤ length (get_or ways.now.looks agent []) }
    requires points { All (λ node. node.point < length (get_or ways.now.looks agent [])) nodes.now }
    requires clock { IsClock clock }
    requires shared { 1 ≤ shared }
    ensures { (cycle : ℕ) → IsGcd cycle clock.period shared → All (λ node. node.phase < cycle) nodes.now
        → IsMost (HasDatesAt (Listed ways.now) agent variable clock cycle nodes.now) result }
{
    // Nodes stand in the order of their points, so each point is asked once.
    let mut most = 0u64;
    let mut point = 0;
    let mut looking = looks(ways, agent, point, variable);
    'nodes: for node in nodes {
        if node.point != point {
            point = node.point;
            looking = looks(ways, agent, point, variable);
        }
        if looking {
            most = most.max(most_between(clock, shared, node.phase, node.due));
        }
    }
    most
}

/// The most dates of a clock that stand between the start and the deadline of an action of the agent of this number and with
/// this graph that may look at a variable.
fn most_of_agent(
    unit: &Unit,
    graph: &Graph,
    ways: &Ways,
    number: u32,
    variable: u32,
    clock: Clock,
) -> u64
    requires bare { IsBare unit.now }
    requires ways { AreWaysFor unit.now ways.now }
    requires number { number < length unit.now.agents }
    requires graph { HasGraphBy unit.now ways.now.nexts number graph.now }
    requires clock { IsClock clock }
    ensures { IsMost (HasDatesOf unit.now (Listed ways.now) ways.now.nexts variable clock number) result }
{
    one_graph();
    let agent = &unit.agents.as_slice()[number as usize];
    let shared = shared_divisor(
        unit.clocks.as_slice(),
        agent.points.as_slice(),
        clock.period,
    );
    most_of_nodes(
        ways,
        number,
        graph.nodes.as_slice(),
        variable,
        clock,
        shared,
    )
}

/// The same of all agents.
fn most_of_all(unit: &Unit, graphs: &[Graph], ways: &Ways, variable: u32, clock: Clock) -> u64
    requires bare { IsBare unit.now }
    requires ways { AreWaysFor unit.now ways.now }
    requires graphs { AreGraphsBy unit.now ways.now.nexts graphs.now }
    requires clock { IsClock clock }
    ensures { IsMost (HasDatesBefore unit.now (Listed ways.now) ways.now.nexts variable clock (length unit.now.agents)) result }
{
    let mut most = 0u64;
    'agents: for number in 0..graphs.len() {
        most = most.max(most_of_agent(unit, &graphs[number], ways, number as u32, variable, clock));
    }
    most
}

/// The size of the ring of a variable.
fn ring(unit: &Unit, graphs: &[Graph], ways: &Ways, variable: u32) -> Result<u32, SizeFault>
    requires bare { IsBare unit.now }
    requires ways { AreWaysFor unit.now ways.now }
    requires graphs { AreGraphsBy unit.now ways.now.nexts graphs.now }
    requires variable { variable < length unit.now.variables }
    ensures size { IfOk result (IsRingSize unit.now (Listed ways.now) ways.now.nexts variable) }
    ensures small { IfOk result (λ size. (1 ≤ size) × (size ≤ RING)) }
    ensures fault { IfErr result (λ fault. fault ≡ large_ring variable) }
    ensures large { IfErr result (λ _. (size : ℕ) × IsRingSize unit.now (Listed ways.now) ways.now.nexts variable size × (RING < size)) }
{
    let decl = &unit.variables.as_slice()[variable as usize];
    let clock = unit.clocks.as_slice()[decl.clock as usize];
    let most = most_of_all(unit, graphs, ways, variable, clock);
    if most > u64::from(RING - decl.depth) {
        return Err(SizeFault::LargeRing(variable));
    }
    Ok(decl.depth + most as u32)
}

/// The sizes of the rings of all variables of a program, in order, from the graphs of its agents. `LargeRing` names the first
/// variable whose ring would have more places than a ring may have.
pub fn rings(
    alloc: Global,
    unit: &Unit,
    graphs: &[Graph],
    ways: &Ways,
) -> Result<Items<u32>, SizeFault>
    requires bare { IsBare unit.now }
    requires ways { AreWaysFor unit.now ways.now }
    requires graphs { AreGraphsBy unit.now ways.now.nexts graphs.now }
    ensures rings { IfOk result (AreRings unit.now (Listed ways.now) ways.now.nexts) }
    ensures small { IfOk result (All (λ size. (1 ≤ size) × (size ≤ RING))) }
    ensures cause { IfErr result (λ fault. (fault ≡ no_memory) ⊎ IsFaultBy unit.now (Listed ways.now) ways.now.nexts fault) }
{
    let mut sizes = Items::new(alloc);
    'variables: for variable in 0..unit.variables.len() {
        push(&mut sizes, ring(unit, graphs, ways, variable as u32)?)?;
    }
    Ok(sizes)
}
