//! The steps on the action graphs of a program: the sizes of its buffers, and whether its processors can supply what its agents may demand.
ghost use Rattle.std.specs.Prelude.{◌≡◌, ◌≤◌, length, IfOk, IfErr};
ghost use Rattle.std.specs.List.{All};
ghost use Rattle.psy_base.specs.declared.limits.TheConstants.{AGENTS};
ghost use Rattle.psy_demand.specs.Criterion.{IsDrawn};
ghost use Rattle.psy_graph.specs.Graphs.{AreGraphs, AreGraphsBy, IsSmall};
ghost use Rattle.psy_meaning.specs.KnownWays.{Listed};
ghost use Rattle.psy_meaning.specs.ListedWays.{AreWaysFor, AreWaysOf};
ghost use Rattle.psy_meaning.specs.Units.{IsBare, IsOfText};
ghost use Rattle.psy_tree.specs.Parts.{homes as homes_by};
ghost use Rattle.psy_plan.specs.Courses.{Stops};
ghost use Rattle.psy_plan.specs.Steps.{graphing, graphing_by, sizing, sizing_by};
ghost use Rattle.psy_plan.specs.Supplies.{meeting, supply_of, supplying, supplying_by};

use crate::extent::{Extent, extent_of};
use crate::rates::lines_of;
use crate::refusal::{Refusal, Stop};
use psy_base::{Items, Sizes, Ways};
use psy_demand::{Finding, criterion};
use psy_flow::laws::listed;
use psy_graph::laws::one_graph;
use psy_graph::{Graph, GraphFault};
use psy_history::homes_of;
use psy_rate::Rate;
use psy_sizes::SizeFault;
use psy_sizes::laws::listed_sizes;
use psy_tree::Unit;
use psy_window::WindowFault;
use std::alloc::Global;

/// What a program that its processors can run needs: its graphs, the sizes of its buffers, the lines above the demands of its agents, and up to which
/// length the demand was looked at.
#[derive(Drop)]
pub struct Supplied {
    pub graphs: Items<Graph>,
    pub sizes: Sizes,
    pub lines: Items<Rate>,
    pub extent: Extent,
}

/// The action graphs of a program's agents by these ways of its actions, which needn't be those of statements.
pub fn graphs_by(alloc: Global, unit: &Unit, ways: &Ways) -> Result<Items<Graph>, Stop>
    requires bare { IsBare unit.now }
    requires ways { AreWaysFor unit.now ways.now }
    ensures ok { IfOk result (λ graphs. (graphing_by unit.now ways.now.nexts).gives graphs) }
    ensures edges { IfOk result (All IsDrawn) }
    ensures small { IfOk result (All IsSmall) }
    ensures refused { IfErr result (Stops (graphing_by unit.now ways.now.nexts).stops) }
{
    match psy_graph::build_by(alloc, unit, ways) {
        Ok(graphs) => Ok(graphs),
        Err(GraphFault::Nodes(_)) => Err(Stop::Refused(Refusal::Nodes)),
        Err(GraphFault::Edges(_)) => Err(Stop::Refused(Refusal::Edges)),
        Err(GraphFault::Memory) => Err(Stop::Memory),
    }
}

/// The action graphs of a program's agents, by the ways of its statements.
pub fn graphs(alloc: Global, unit: &Unit, ways: &Ways) -> Result<Items<Graph>, Stop>
    requires text { IsOfText unit.now }
    requires ways { AreWaysOf unit.now ways.now }
    ensures ok { IfOk result (λ graphs. (graphing unit.now).gives graphs) }
    ensures edges { IfOk result (All IsDrawn) }
    ensures small { IfOk result (All IsSmall) }
    ensures refused { IfErr result (Stops (graphing unit.now).stops) }
{
    listed();
    one_graph();
    graphs_by(alloc, unit, ways)
}

/// The sizes of a program's buffers by these ways of its actions, and by its graphs.
pub fn sizes_by(
    alloc: Global,
    unit: &Unit,
    graphs: &Items<Graph>,
    ways: &Ways,
) -> Result<Sizes, Stop>
    requires bare { IsBare unit.now }
    requires ways { AreWaysFor unit.now ways.now }
    requires graphs { AreGraphsBy unit.now ways.now.nexts graphs.now }
    ensures ok { IfOk result (λ sizes. (sizing_by unit.now (Listed ways.now) ways.now.nexts).gives sizes) }
    ensures refused { IfErr result (Stops (sizing_by unit.now (Listed ways.now) ways.now.nexts).stops) }
{
    match psy_sizes::sizes_by(alloc, unit, graphs.as_slice(), ways) {
        Ok(sizes) => Ok(sizes),
        Err(SizeFault::LargeRing(_)) => Err(Stop::Refused(Refusal::Ring)),
        Err(SizeFault::Cells(_)) => Err(Stop::Refused(Refusal::Cells)),
        Err(SizeFault::LargeQueue(_)) => Err(Stop::Refused(Refusal::Queue)),
        Err(SizeFault::Memory) => Err(Stop::Memory),
    }
}

/// The sizes of a program's buffers, by the ways of its statements and its graphs.
pub fn sizes(alloc: Global, unit: &Unit, graphs: &Items<Graph>, ways: &Ways) -> Result<Sizes, Stop>
    requires text { IsOfText unit.now }
    requires ways { AreWaysOf unit.now ways.now }
    requires graphs { AreGraphs unit.now graphs.now }
    ensures ok { IfOk result (λ sizes. (sizing unit.now ways.now.nexts).gives sizes) }
    ensures refused { IfErr result (Stops (sizing unit.now ways.now.nexts).stops) }
{
    listed();
    one_graph();
    listed_sizes();
    sizes_by(alloc, unit, graphs, ways)
}

// Whether each processor can supply the demand of its agents over each length up to this one.
fn demand(
    alloc: Global,
    unit: &Unit,
    graphs: &Items<Graph>,
    homes: &Items<u32>,
    top: u32,
) -> Result<(), Stop>
    requires bare { IsBare unit.now }
    requires homes { homes.now ≡ homes_by unit.now }
    requires count { length graphs.now ≡ length unit.now.agents }
    requires edges { All IsDrawn graphs.now }
    requires small { All IsSmall graphs.now }
    requires few { length graphs.now ≤ AGENTS }
    ensures ok { IfOk result (λ done. (meeting unit.now graphs.now top).gives done) }
    ensures refused { IfErr result (Stops (meeting unit.now graphs.now top).stops) }
{
    match criterion(
        alloc,
        graphs.as_slice(),
        homes.as_slice(),
        unit.quantum,
        top,
    ) {
        Ok(Finding::Feasible) => Ok(()),
        Ok(
            Finding::Overload {
                length,
                processor,
                demand,
            },
        ) => {
            let supply = u64::from(unit.quantum) * u64::from(length);
            Err(Stop::Refused(Refusal::Infeasible {
                length,
                demand,
                supply,
                processor,
            }))
        }
        Err(WindowFault::Cells) => Err(Stop::Refused(Refusal::Cells)),
        Err(WindowFault::Memory) => Err(Stop::Memory),
    }
}

/// Whether its processors can run a program by these ways of its actions, which needn't be those of statements: its buffers keep their limits, and what
/// its agents may demand over each length up to the horizon, or up to a date where that comes first, is supplied.
pub fn plan_by(alloc: Global, unit: &Unit, ways: &Ways, until: u32) -> Result<Supplied, Stop>
    requires bare { IsBare unit.now }
    requires ways { AreWaysFor unit.now ways.now }
    ensures ok { IfOk result (λ found. (supplying_by unit.now ways.now until).gives (supply_of ways.now.nexts found)) }
    ensures refused { IfErr result (Stops (supplying_by unit.now ways.now until).stops) }
{
    let graphs = graphs_by(alloc, unit, ways)?;
    let sizes = sizes_by(alloc, unit, &graphs, ways)?;
    let lines = lines_of(alloc, &graphs)?;
    let homes = homes_of(alloc, unit)?;
    let extent = extent_of(alloc, &homes, &lines, unit.quantum, until)?;
    let top = extent.length();
    demand(alloc, unit, &graphs, &homes, top)?;
    Ok(Supplied {
        graphs,
        sizes,
        lines,
        extent,
    })
}

/// The same by the ways of a program's statements.
pub fn plan(alloc: Global, unit: &Unit, ways: &Ways, until: u32) -> Result<Supplied, Stop>
    requires text { IsOfText unit.now }
    requires ways { AreWaysOf unit.now ways.now }
    ensures ok { IfOk result (λ found. (supplying unit.now until).gives (supply_of ways.now.nexts found)) }
    ensures refused { IfErr result (Stops (supplying unit.now until).stops) }
{
    listed();
    one_graph();
    listed_sizes();
    plan_by(alloc, unit, ways, until)
}
