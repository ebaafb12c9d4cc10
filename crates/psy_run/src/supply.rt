//! What a run of a program needs, planned.
ghost use Rattle.std.specs.Prelude.{◌≡◌, ℕ, List, IfOk, IfErr};
ghost use Rattle.std.specs.List.{All};
ghost use Rattle.psy_gen.specs.Emission.{code_of};
ghost use Rattle.psy_graph.specs.Graphs.{IsSmall};
ghost use Rattle.psy_meaning.specs.Alike.{ActsAlike};
ghost use Rattle.psy_meaning.specs.ListedWays.{AreWaysOf};
ghost use Rattle.psy_meaning.specs.Units.{IsOfText};
ghost use Rattle.psy_run.specs.Answer.{supplying};
ghost use Rattle.psy_run.specs.Outcome.{Halts};
ghost use Rattle.psy_run.specs.Steps.{graphing};
ghost use Rattle.psy_run.specs.Supplies.{supply_of};

use crate::refusal::{Stop, stopped};
use psy_base::{Items, Sizes, Ways};
use psy_code::Code;
use psy_graph::Graph;
use psy_plan::{Extent, plan, with_ways};
use psy_rate::Rate;
use psy_tree::Unit;
use std::alloc::Global;

/// What a program that its processors can run needs: its code, the ways of its actions, and the sizes of its buffers; with the graphs of its agents'
/// actions, the lines above their demands, and up to which length the demand was looked at.
#[derive(Drop)]
pub struct Supplied {
    pub code: Code,
    pub ways: Ways,
    pub graphs: Items<Graph>,
    pub sizes: Sizes,
    pub lines: Items<Rate>,
    pub extent: Extent,
}

/// The action graphs of a program's agents, by the ways of their actions.
pub fn graphs(alloc: Global, unit: &Unit, ways: &Ways) -> Result<Items<Graph>, Stop>
    requires text { IsOfText unit.now }
    requires ways { AreWaysOf unit.now ways.now }
    ensures ok { IfOk result (λ graphs. (graphing unit.now).gives graphs) }
    ensures small { IfOk result (All IsSmall) }
    ensures err { (failed : List ℕ) (before after : ℕ) → IfErr result (Halts (graphing unit.now) failed before after) }
{
    match psy_plan::graphs(alloc, unit, ways) {
        Ok(graphs) => Ok(graphs),
        Err(stop) => Err(stopped(stop)),
    }
}

/// Whether its processors can run a program: its buffers keep their limits, and what its agents may demand over each length up to the horizon, or
/// up to a date where that comes first, is supplied.
pub fn supply(alloc: Global, unit: &Unit, until: u32) -> Result<Supplied, Stop>
    requires text { IsOfText unit.now }
    ensures ok { IfOk result (λ supply. (supplying unit.now until).gives (supply_of supply)) }
    ensures code { IfOk result (λ supply. supply.code ≡ code_of unit.now) }
    ensures alike { IfOk result (λ supply. ActsAlike unit.now supply.code) }
    ensures ways { IfOk result (λ supply. AreWaysOf unit.now supply.ways) }
    ensures err { (failed : List ℕ) (before after : ℕ) → IfErr result (Halts (supplying unit.now until) failed before after) }
{
    let coded = with_ways(alloc, unit)?;
    match plan(alloc, unit, &coded.ways, until) {
        Ok(found) => Ok(Supplied {
            code: coded.code,
            ways: coded.ways,
            graphs: found.graphs,
            sizes: found.sizes,
            lines: found.lines,
            extent: found.extent,
        }),
        Err(stop) => Err(stopped(stop)),
    }
}
