//! The greatest costs of a program's actions.

ghost use Rattle.std.specs.Prelude.{IfOk};
ghost use Rattle.psy_meaning.specs.Units.{IsOfText};
ghost use Rattle.psy_flow.specs.Costs.{AreAllCosts};

use crate::backwards::counts_of_points;
use crate::costs::costs_of_calls;
use crate::gauge::Gauge;
use crate::laws::known;
use psy_base::{Items, Memory};
use psy_lists::push;
use psy_tree::Unit;
use std::alloc::Global;

/// The greatest cost of an action from each point of each agent, in instructions, cut at 1,000,000,000: by agent and point. The only error
/// is want of memory.
pub fn worsts(alloc: Global, unit: &Unit) -> Result<Items<Items<u64>>, Memory>
    requires text { IsOfText unit.now }
    ensures { IfOk result (AreAllCosts unit.now) }
{
    known();
    let functions = unit.functions.as_slice();
    let calls = costs_of_calls(Gauge::Steps, functions);
    let row = &calls[..functions.len()];
    let mut costs = Items::new(alloc);
    'agents: for number in 0..unit.agents.len() {
        let agent = &unit.agents.as_slice()[number];
        let own = counts_of_points(alloc, Gauge::Steps, None, row, agent.stmts.as_slice())?;
        push(&mut costs, own)?;
    }
    Ok(costs)
}
