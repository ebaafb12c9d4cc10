//! The demand on one processor over each length: the sum of its agents' demands, each added as it is made and then let go.
ghost use Rattle.std.specs.Prelude.{◌≡◌, ◌==◌, ◌↔◌, ℕ, ◌+◌, ◌*◌, ◌^◌, ◌<◌, ◌≤◌, IfOk, OnOk, length, slice_index};
ghost use Rattle.std.specs.List.{All};
ghost use Rattle.psy_base.specs.declared.limits.TheConstants.{AGENTS};
ghost use Rattle.psy_graph.specs.Graphs.{IsSmall};
ghost use Rattle.psy_meaning.specs.Demand.{IsDemand, edges_on};
ghost use Rattle.psy_demand.specs.Criterion.{AreWeights, HasCells, IsDrawn, edges_of};
ghost use Rattle.psy_demand.specs.Sums.{HasTakenIn};

use crate::lists::weights_of;
use psy_base::{Items, Memory};
use psy_graph::Graph;
use psy_window::WindowFault;
use std::alloc::Global;

// The demand of an agent whose table keeps its limit.
fn row_of(alloc: Global, graph: &Graph, top: u32) -> Result<Items<u64>, Memory>
    requires edges { IsDrawn graph.now }
    requires small { IsSmall graph.now }
    requires cells { HasCells top graph.now }
    ensures { IfOk result (AreWeights top graph.now) }
{
    match weights_of(alloc, graph, top) {
        Ok(row) => Ok(row),
        Err(WindowFault::Memory) => Err(Memory),
        Err(WindowFault::Cells) => unreachable!(),
    }
}

// Adds a row, place by place.
fn add(sums: &mut [u64], row: &[u64])
    requires count { length row.now ≡ length sums.old }
    requires small { All (λ sum. sum < 2 ^ 63) sums.old }
    requires row { All (λ weight. weight < 2 ^ 50) row.now }
    ensures count { length sums.new ≡ length sums.old }
    ensures sums { (at : ℕ) → at < length sums.old → slice_index sums.new at ≡ slice_index sums.old at + slice_index row.now at }
{
    for at in 0..row.len() {
        sums[at] += row[at];
    }
}

// The sums take in the demand of an agent, if it is the processor's own.
fn take_in(
    alloc: Global,
    sums: &mut [u64],
    graph: &Graph,
    own: bool,
    top: u32,
) -> Result<(), Memory>
    requires edges { IsDrawn graph.now }
    requires small { IsSmall graph.now }
    requires cells { HasCells top graph.now }
    requires count { length sums.old ≡ top + 1 }
    requires sums { All (λ sum. sum < 2 ^ 63) sums.old }
    ensures { OnOk result (HasTakenIn graph.now own top sums.old sums.new) }
{
    if own {
        let row = row_of(alloc, graph, top)?;
        add(sums, row.as_slice());
    }
    Ok(())
}

// The sums, which are 0, take in the demands of a processor's agents.
fn sum_up(
    alloc: Global,
    sums: &mut [u64],
    graphs: &[Graph],
    homes: &[u32],
    processor: u32,
    top: u32,
) -> Result<(), Memory>
    requires edges { All IsDrawn graphs.now }
    requires small { All IsSmall graphs.now }
    requires cells { All (HasCells top) graphs.now }
    requires few { length graphs.now ≤ AGENTS }
    requires count { length homes.now ≡ length graphs.now }
    requires long { length sums.old ≡ top + 1 }
    requires none { All (λ sum. sum ≡ 0) sums.old }
    ensures count { OnOk result (length sums.new ≡ top + 1) }
    ensures demand { OnOk result ((within : ℕ) → within < top + 1
        → IsDemand (edges_on homes.now processor (edges_of graphs.now)) within (slice_index sums.new within)) }
    ensures small { OnOk result (All (λ sum. sum < 2 ^ 50) sums.new) }
{
    for agent in 0..graphs.len() {
        let own = homes[agent] == processor;
        take_in(alloc, sums, &graphs[agent], own, top)?;
    }
    Ok(())
}

/// The demand on a processor over each length from 0 to `top`, where `homes` has the processor of each agent. It keeps the sums and the demand of
/// one agent at a time.
pub fn demand_on(
    alloc: Global,
    graphs: &[Graph],
    homes: &[u32],
    processor: u32,
    top: u32,
) -> Result<Items<u64>, Memory>
    requires edges { All IsDrawn graphs.now }
    requires small { All IsSmall graphs.now }
    requires cells { All (HasCells top) graphs.now }
    requires few { length graphs.now ≤ AGENTS }
    requires count { length homes.now ≡ length graphs.now }
    ensures count { IfOk result (λ sums. length sums ≡ top + 1) }
    ensures demand { IfOk result (λ sums. (within : ℕ) → within < top + 1
        → IsDemand (edges_on homes.now processor (edges_of graphs.now)) within (slice_index sums within)) }
    ensures small { IfOk result (All (λ sum. sum < 2 ^ 50)) }
{
    let mut sums = vec![in alloc; 0; top as usize + 1]?;
    sum_up(alloc, &mut sums, graphs, homes, processor, top)?;
    Ok(Items::from_vec(sums))
}
