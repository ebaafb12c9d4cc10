//! The processors of a program, and which of them each agent is of.
ghost use Rattle.std.specs.Prelude.{◌≡◌, ◌<◌, ◌≤◌, IfOk, length};
ghost use Rattle.psy_base.specs.declared.limits.TheConstants.{PROCESSORS};
ghost use Rattle.psy_history.specs.Processors.{processor_at, processors};
ghost use Rattle.psy_meaning.specs.Units.{IsBare};
ghost use Rattle.psy_tree.specs.Parts.{homes};

use psy_base::{Items, Memory};
use psy_tree::Unit;
use std::alloc::Global;

/// The processor that an agent is of.
pub fn processor_of(unit: &Unit, agent: u32) -> u32
    requires { agent < length unit.now.agents }
    ensures { result ≡ processor_at unit.now agent }
{
    unit.agents.as_slice()[agent as usize].processor
}

/// How many processors a program has, 1 to `PROCESSORS`.
pub fn processors_of(unit: &Unit) -> u32
    requires { IsBare unit.now }
    ensures exact { result ≡ processors unit.now }
    ensures few { result ≤ PROCESSORS }
{
    let mut last = 0;
    for agent in unit.agents.as_slice() {
        last = agent.processor.max(last);
    }
    last + 1
}

/// By agent, the processor that it is of. The only error is want of memory.
pub fn homes_of(alloc: Global, unit: &Unit) -> Result<Items<u32>, Memory>
    ensures { IfOk result (λ list. list ≡ homes unit.now) }
{
    let mut list = Items::new(alloc);
    for agent in unit.agents.as_slice() {
        list.push(agent.processor)?;
    }
    Ok(list)
}
