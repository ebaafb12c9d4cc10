//! The kernel before its first date.
ghost use Rattle.std.specs.Prelude.{◌≡◌, ◌^◌, ◌<◌, ◌≤◌, ℕ, List, [], map, length, replicate, IfOk};
ghost use Rattle.std.specs.List.{AllPairs, range_with_len};
ghost use Rattle.psy_base.specs.declared.limits.TheConstants.{AGENTS};
ghost use Rattle.psy_budget.specs.declared.charge.Stall.{Stall as stall};
ghost use Rattle.psy_dates.specs.Plans.{IsPlan, system_of};
ghost use Rattle.psy_dates.specs.Standing.{SharedStands};
ghost use Rattle.psy_history.specs.Compiled.{AreInputs};
ghost use Rattle.psy_kernel.specs.Engines.{begun};
ghost use Rattle.psy_history.specs.Scripts.{IsScript, StallBefore, stalls_of};
ghost use Rattle.psy_kernel.specs.Standing.{AreInForce};
ghost use Rattle.psy_kernel.specs.Starting.{AreNew, IsNewRunner, first_charge, first_server};

use super::{Engine, Figure, Runner, Server};
use psy_base::{Items, Memory};
use psy_budget::{Charge, Stall};
use psy_code::Code;
use psy_dates::{Plan, Shared};
use psy_history::laws::{fitting, one_of_them, reaches};
use psy_history::{Inputs, Order, Script, processors_of};
use psy_machine::Machine;
use psy_ready::Ready;
use std::alloc::Global;

/// The stalls of an agent.
fn stalls_of(alloc: Global, script: &Script, agent: u32) -> Result<Items<Stall>, Memory>
    ensures { IfOk result (λ stalls. stalls ≡ stalls_of script.now agent) }
{
    let all = script.stalls.as_slice();
    let mut stalls = Items::new(alloc);
    for stall in all {
        if stall.agent == agent {
            stalls.push(*stall)?;
        }
    }
    Ok(stalls)
}

/// The charge of an agent none of whose actions has started.
pub(super) fn charge_of(alloc: Global, script: &Script, agent: u32) -> Result<Charge, Memory>
    requires { AllPairs StallBefore script.now.stalls }
    ensures { IfOk result (λ charge. charge ≡ first_charge script.now agent) }
{
    Ok(Charge::new(stalls_of(alloc, script, agent)?))
}

/// What an agent has none of whose actions has started.
fn runner_of(alloc: Global, code: &Code, script: &Script, agent: u32) -> Result<Runner, Memory>
    requires known { agent < length code.now.agents }
    requires rise { AllPairs StallBefore script.now.stalls }
    ensures { IfOk result (IsNewRunner code.now script.now agent) }
{
    Ok(Runner {
        machine: Machine::new(alloc, code, agent)?,
        charge: charge_of(alloc, script, agent)?,
        figure: Figure {
            count: 0,
            slack: None,
        },
    })
}

/// By agent, what it has, none of whose actions has started.
fn runners_of(alloc: Global, code: &Code, script: &Script) -> Result<Vec<Runner>, Memory>
    requires few { length code.now.agents ≤ AGENTS }
    requires rise { AllPairs StallBefore script.now.stalls }
    ensures count { IfOk result (λ runners. length runners.items ≡ length code.now.agents) }
    ensures new { IfOk result (λ runners. AreNew code.now script.now runners.items) }
{
    let mut runners = Vec::new(alloc);
    'agents: for agent in 0..code.agents.len() {
        runners.push(runner_of(alloc, code, script, agent as u32)?)?;
    }
    Ok(runners)
}

/// So many agents, in the order of declaration.
pub(super) fn declared_of(alloc: Global, agents: u32) -> Result<Vec<u32>, Memory>
    ensures { IfOk result (λ declared. declared.items ≡ range_with_len 0 agents) }
{
    let mut declared = Vec::new(alloc);
    for agent in 0..agents {
        declared.push(agent)?;
    }
    Ok(declared)
}

/// How many orders are in force from cycle 0 on.
fn passed_first(orders: &[Order]) -> usize
    requires { AllPairs (λ o p. o.cycle < p.cycle) orders.now }
    ensures { AreInForce orders.now result 0 }
{
    match orders.first() {
        Some(order) => usize::from(order.cycle == 0),
        None => 0,
    }
}

/// A processor before its first cycle, for which none of so many agents waits.
fn server_of(alloc: Global, agents: u32, passed: usize) -> Result<Server, Memory>
    ensures { IfOk result (λ server. server ≡ first_server agents passed) }
{
    Ok(Server {
        cycles: 0,
        ready: Ready::new(alloc, agents)?,
        passed,
        chosen: None,
        stale: true,
    })
}

/// So many processors before their first cycle.
fn servers_of(
    alloc: Global,
    processors: u32,
    agents: u32,
    passed: usize,
) -> Result<Vec<Server>, Memory>
    ensures { IfOk result (λ servers. servers.items ≡ replicate processors (first_server agents passed)) }
{
    let mut servers = Vec::new(alloc);
    'servers: for _ in 0..processors {
        servers.push(server_of(alloc, agents, passed)?)?;
    }
    Ok(servers)
}

impl Engine {
    /// An engine before date 0. All the memory that a run takes is taken here; the only error is want of it.
    pub(crate) fn boot(
        alloc: Global,
        plan: Plan,
        inputs: Inputs,
        script: Script,
    ) -> Result<Engine, Memory>
        requires plan { IsPlan plan }
        requires inputs { AreInputs plan.unit inputs.lists }
        requires script { IsScript plan.unit script }
        ensures { IfOk result (λ engine. engine ≡ begun plan inputs.lists script) }
    {
        fitting();
        reaches();
        let agents = plan.unit.agents.len() as u32;
        let runners = runners_of(alloc, &plan.code, &script)?;
        let reached = vec![in alloc; None; plan.unit.variables.len()]?;
        let helds = vec![in alloc; 0; plan.unit.streams.len()]?;
        let declared = declared_of(alloc, agents)?;
        let passed = passed_first(script.orders.as_slice());
        let servers = servers_of(alloc, processors_of(&plan.unit), agents, passed)?;
        let shared = Shared::new(alloc, &plan, inputs)?;
        Ok(Engine {
            plan,
            script,
            opening: None,
            shared,
            runners,
            servers,
            reaches: reached,
            helds,
            declared,
            place: 0,
            shown: 0,
            given: 0,
        })
    }

    /// How many dates were done.
    pub(crate) fn dates(&self) -> u64
        ensures dates { result ≡ self.now.dates }
        ensures few { result ≤ 2 ^ 32 }
    {
        one_of_them();
        let until = self.until();
        match self.shared.date {
            Some(date) => {
                prove!(date <= u64::from(until));
                date + 1
            }
            None => 0,
        }
    }
}
