//! The processor demand criterion over action graphs (Baruah, Rosier, Howell 1990).
ghost use Rattle.std.specs.Prelude.{◌≡◌, ◌↔◌, ◌<◌, ◌≤◌, ℕ, IfOk, length};
ghost use Rattle.std.specs.List.{All, Any};
ghost use Rattle.std.specs.Result.{IsErrOf};
ghost use Rattle.psy_base.specs.declared.limits.TheConstants.{AGENTS, PROCESSORS};
ghost use Rattle.psy_graph.specs.Graphs.{IsSmall};
ghost use Rattle.psy_meaning.specs.Demand.{AreFeasible, IsOverloadOn, edges_on};
ghost use Rattle.psy_demand.specs.Criterion.{HasCells, IsDrawn, PassesCells, edges_of};
ghost use Rattle.psy_demand.specs.Findings.{IsFoundOf, IsVerdictOn};

use crate::demand::{Verdict, feasible};
use crate::finding::{Finding, joined};
use crate::lists::any_passes;
use crate::sums::demand_on;
use psy_base::Memory;
use psy_base::limits::PROCESSORS;
use psy_graph::Graph;
use psy_window::WindowFault;
use std::alloc::Global;

// The verdict on one processor.
fn verdict_on(
    alloc: Global,
    graphs: &[Graph],
    homes: &[u32],
    processor: u32,
    quantum: u32,
    top: u32,
) -> Result<Verdict, Memory>
    requires edges { All IsDrawn graphs.now }
    requires small { All IsSmall graphs.now }
    requires cells { All (HasCells top) graphs.now }
    requires few { length graphs.now ≤ AGENTS }
    requires count { length homes.now ≡ length graphs.now }
    ensures { IfOk result (IsVerdictOn (edges_on homes.now processor (edges_of graphs.now)) quantum top) }
{
    let demands = demand_on(alloc, graphs, homes, processor, top)?;
    Ok(feasible(&[demands], quantum, top))
}

// What is found of all processors, one after the other.
fn find(
    alloc: Global,
    graphs: &[Graph],
    homes: &[u32],
    quantum: u32,
    top: u32,
) -> Result<Finding, Memory>
    requires edges { All IsDrawn graphs.now }
    requires small { All IsSmall graphs.now }
    requires cells { All (HasCells top) graphs.now }
    requires few { length graphs.now ≤ AGENTS }
    requires count { length homes.now ≡ length graphs.now }
    ensures { IfOk result (IsFoundOf homes.now (edges_of graphs.now) quantum top PROCESSORS) }
{
    let mut found = Finding::Feasible;
    for processor in 0..PROCESSORS {
        let verdict = verdict_on(alloc, graphs, homes, processor, quantum, top)?;
        found = joined(found, processor, verdict);
    }
    Ok(found)
}

/// Whether processors that supply `quantum` cycles a tick each can supply what their agents may demand, over each length from 1 to `top`:
/// `Feasible`, or the least length over which one can't, the least such processor, and the demand on it over that length. `homes` has the
/// processor of each agent, whose graph stands in the same place. `Cells` tells that a table by which the demand is found would
/// have more than 4,000,000 cells; the only other error is want of memory, of which it takes 16 bytes a length, and a table, at a time.
pub fn criterion(
    alloc: Global,
    graphs: &[Graph],
    homes: &[u32],
    quantum: u32,
    top: u32,
) -> Result<Finding, WindowFault>
    requires edges { All IsDrawn graphs.now }
    requires small { All IsSmall graphs.now }
    requires few { length graphs.now ≤ AGENTS }
    requires count { length homes.now ≡ length graphs.now }
    requires known { All (λ home. home < PROCESSORS) homes.now }
    ensures yes { IfOk result (λ found. (found ≡ Finding.Feasible) ↔ AreFeasible homes.now (edges_of graphs.now) quantum top) }
    ensures no { IfOk result (λ found. (length processor demand : ℕ) → (found ≡ Finding.Overload length processor demand)
        ↔ IsOverloadOn homes.now (edges_of graphs.now) quantum top length processor demand) }
    ensures cells { IsErrOf result WindowFault.Cells ↔ Any (PassesCells top) graphs.now }
{
    if any_passes(graphs, top) {
        return Err(WindowFault::Cells);
    }
    Ok(find(alloc, graphs, homes, quantum, top)?)
}
