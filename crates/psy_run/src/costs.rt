//! The greatest costs of the actions of a program's agents.
ghost use Rattle.std.specs.Prelude.{◌≡◌, IfOk, IfErr};
ghost use Rattle.psy_meaning.specs.Units.{IsOfText};
ghost use Rattle.psy_run.specs.Steps.{costing};

use crate::refusal::Stop;
use psy_base::Items;
use psy_flow::worsts;
use psy_tree::Unit;
use std::alloc::Global;

/// The greatest costs of the actions of a program's agents, by agent and point, each cut at 1,000,000,000.
pub fn all_costs(alloc: Global, unit: &Unit) -> Result<Items<Items<u64>>, Stop>
    requires { IsOfText unit.now }
    ensures ok { IfOk result (λ costs. (costing unit.now).gives costs) }
    ensures err { IfErr result (λ stop. stop ≡ Stop.Memory) }
{
    Ok(worsts(alloc, unit)?)
}
