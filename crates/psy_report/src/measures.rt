//! All that is measured of a program.
ghost use Rattle.std.specs.Prelude.{◌≡◌, ◌^◌, ◌<◌, ◌≤◌, IfErr, IfOk, [], get_or, length};
ghost use Rattle.std.specs.List.{All};
ghost use Rattle.psy_demand.specs.Criterion.{AreEach, AreWeights, IsDrawn};
ghost use Rattle.psy_graph.specs.Graphs.{IsSmall};
ghost use Rattle.psy_meaning.specs.Units.{IsOfText};
ghost use Rattle.psy_plan.specs.Courses.{Stops};
ghost use Rattle.psy_plan.specs.Steps.{windowing};
ghost use Rattle.psy_report.specs.Measured.{AreMeasures, IsUnmeasured};

use psy_base::{Items, Sizes};
use psy_demand::weights_of_all;
use psy_flow::laws::one_list;
use psy_flow::{ways, worsts};
use psy_graph::Graph;
use psy_plan::{Refusal, Stop, graphs, lines_of, sizes};
use psy_rate::Rate;
use psy_tree::Unit;
use psy_window::WindowFault;
use std::alloc::Global;

/// What is measured of a program.
#[derive(Drop)]
pub struct Measures {
    /// The greatest cost of an action, by agent and point, cut at 1,000,000,000.
    pub costs: Items<Items<u64>>,
    /// The places of each buffer.
    pub sizes: Sizes,
    /// The line above the demand of each agent.
    pub lines: Items<Rate>,
    /// The demand of each agent over each length, from 0 to a greatest one.
    pub lists: Items<Items<u64>>,
}

/// A program, and what is measured of it.
#[derive(Clone, Copy)]
pub struct Known<'a> {
    pub unit: &'a Unit,
    pub measures: &'a Measures,
}

/// Measures a program, and its demands over the lengths up to one. It needn't be a program that its processors can run. A refusal is that of a
/// limit, as psyc tells it; the only other error is want of memory.
pub fn measure(alloc: Global, unit: &Unit, top: u32) -> Result<Measures, Stop>
    requires text { IsOfText unit.now }
    ensures measures { IfOk result (AreMeasures unit.now top) }
    ensures rates { IfOk result (λ measures. All (λ line. line.rate ≤ 2 ^ 40) measures.lines) }
    ensures parts { IfOk result (λ measures. All (All (λ part. part < 2 ^ 50)) measures.lists) }
    ensures count { IfOk result (λ measures. length measures.lists ≡ length unit.now.agents) }
    ensures refused { IfErr result (Stops (IsUnmeasured unit.now top)) }
{
    one_list();
    let ways = ways(alloc, unit)?;
    let graphs = graphs(alloc, unit, &ways)?;
    let sizes = sizes(alloc, unit, &graphs, &ways)?;
    let costs = worsts(alloc, unit)?;
    let lines = lines_of(alloc, &graphs)?;
    let lists = lists_of(alloc, &graphs, top)?;
    Ok(Measures {
        costs,
        sizes,
        lines,
        lists,
    })
}

// The demands of all agents over each length from 0 to `top`.
fn lists_of(alloc: Global, graphs: &Items<Graph>, top: u32) -> Result<Items<Items<u64>>, Stop>
    requires edges { All IsDrawn graphs.now }
    requires few { All IsSmall graphs.now }
    ensures lists { IfOk result (AreEach (AreWeights top) graphs.now) }
    ensures refused { IfErr result (Stops (windowing graphs.now top).stops) }
{
    match weights_of_all(alloc, graphs.as_slice(), top) {
        Ok(lists) => Ok(lists),
        Err(WindowFault::Cells) => Err(Stop::Refused(Refusal::Cells)),
        Err(WindowFault::Memory) => Err(Stop::Memory),
    }
}

/// The list of an agent, of lists by agent.
pub fn list_at(lists: &Items<Items<u64>>, agent: u32) -> &[u64]
    ensures { result.now ≡ get_or lists.now agent [] }
{
    match lists.as_slice().get(agent as usize) {
        Some(list) => list.as_slice(),
        None => &[],
    }
}

/// What a list has at a place; 0 where it isn't so long.
pub fn at(list: &[u64], place: usize) -> u64
    ensures { result ≡ get_or list.now place 0 }
{
    match list.get(place) {
        Some(number) => *number,
        None => 0,
    }
}
