//! The engine of a run that goes on from a state.
ghost use Rattle.std.specs.Prelude.{◌≡◌, ◌+◌, ◌*◌, ◌<◌, ◌≤◌, ℕ, Bool, List, [], length, map, replicate, slice_get, IfOk, Option, Some};
ghost use Rattle.std.specs.List.{All, AllPairs, range_with_len};
ghost use Rattle.psy_base.specs.declared.limits.TheConstants.{AGENTS};
ghost use Rattle.psy_dates.specs.Beginnings.{behind};
ghost use Rattle.psy_dates.specs.Movers.{NamesAll};
ghost use Rattle.psy_dates.specs.Outboxes.{Outboxed};
ghost use Rattle.psy_dates.specs.Plans.{IsPlan, IsSoundFor, opened_of};
ghost use Rattle.psy_dates.specs.Standing.{SharedStands};
ghost use Rattle.psy_dates.specs.declared.opening.AgentOpening.{AgentOpening as AgentState};
ghost use Rattle.psy_history.specs.Compiled.{AreInputs};
ghost use Rattle.psy_history.specs.Processors.{processors};
ghost use Rattle.psy_history.specs.Schedule.{Turn, units};
ghost use Rattle.psy_history.specs.Scripts.{IsScript, StallBefore, stalls_of};
ghost use Rattle.psy_machine.specs.Stepping.{IsOf};
ghost use Rattle.psy_meaning.specs.Units.{IsBare};
ghost use Rattle.psy_kernel.specs.Engines.{begun_behind};
ghost use Rattle.psy_kernel.specs.Resuming.{AreBehind, CanBegin, CanStart, HasShapeOf, IsMachineBy, IsMachineOf, IsRunnerBehind};
ghost use Rattle.psy_kernel.specs.Resuming.{charge_behind, number_by, number_of, server_behind};
ghost use Rattle.psy_kernel.specs.Standing.{AreInForce};

use super::boot::{charge_of, declared_of};
use super::date::start_all;
use super::{Engine, Figure, Runner, Server};
use psy_base::Memory;
use psy_budget::Charge;
use psy_code::Code;
use psy_dates::{
    AgentOpening, Begun, NextAction, Opening, Plan, Shared, StreamOpening, VarOpening,
};
use psy_history::laws::{fitting, one_of_them, openings, reaches, regular};
use psy_history::{Inputs, Order, Script, processors_of};
use psy_machine::Machine;
use psy_ready::Ready;
use std::alloc::Global;

/// How many actions an agent had before the one that it starts.
fn number_by(action: &Option<NextAction>) -> u64
    ensures { result ≡ number_by action.now }
{
    match action {
        Some(action) => action.number,
        None => 0,
    }
}

/// The same of an agent that may not have begun.
fn number_of(begun: &Option<Begun>) -> u64
    ensures { result ≡ number_of begun.now }
{
    match begun {
        Some(begun) => number_by(&begun.action),
        None => 0,
    }
}

/// The machine of an agent that starts this action, with these values of its variables.
fn machine_by(
    alloc: Global,
    code: &Code,
    agent: u32,
    copies: &[i32],
    action: &Option<NextAction>,
) -> Result<Machine, Memory>
    requires known { agent < length code.now.agents }
    requires place { CanStart code.now agent copies.now action.now }
    ensures machine { IfOk result (IsMachineBy code.now agent copies.now action.now) }
    ensures of_code { IfOk result (IsOf code.now) }
{
    match action {
        Some(action) => Machine::resume(
            alloc,
            code,
            agent,
            action.point,
            action.cells.as_slice(),
            copies,
        ),
        None => Machine::new(alloc, code, agent),
    }
}

/// The same of an agent that may not have begun.
fn machine_of(
    alloc: Global,
    code: &Code,
    agent: u32,
    begun: &Option<Begun>,
) -> Result<Machine, Memory>
    requires known { agent < length code.now.agents }
    requires place { CanBegin code.now agent begun.now }
    ensures machine { IfOk result (IsMachineOf code.now agent begun.now) }
    ensures of_code { IfOk result (IsOf code.now) }
{
    match begun {
        Some(begun) => machine_by(alloc, code, agent, begun.copies.as_slice(), &begun.action),
        None => Machine::new(alloc, code, agent),
    }
}

/// The charge of an agent that had so many actions.
fn charge_behind(alloc: Global, script: &Script, agent: u32, started: u64) -> Result<Charge, Memory>
    requires { AllPairs StallBefore script.now.stalls }
    ensures { IfOk result (λ charge. charge ≡ charge_behind script.now agent started) }
{
    let mut charge = charge_of(alloc, script, agent)?;
    if started == 0 {
        return Ok(charge);
    }
    charge.start_at(started - 1, 0);
    Ok(charge)
}

/// What an agent has behind the date of a state, before its action is charged.
fn runner_behind(
    alloc: Global,
    code: &Code,
    script: &Script,
    agent: u32,
    known: &AgentOpening,
) -> Result<Runner, Memory>
    requires known { agent < length code.now.agents }
    requires rise { AllPairs StallBefore script.now.stalls }
    requires place { CanBegin code.now agent known.now.begun }
    ensures { IfOk result (IsRunnerBehind code.now script.now agent known.now) }
{
    Ok(Runner {
        machine: machine_of(alloc, code, agent, &known.begun)?,
        charge: charge_behind(alloc, script, agent, number_of(&known.begun))?,
        figure: Figure {
            count: known.count,
            slack: known.slack,
        },
    })
}

/// By agent, what it has behind the date of a state.
fn runners_behind(
    alloc: Global,
    code: &Code,
    script: &Script,
    agents: &[AgentOpening],
) -> Result<Vec<Runner>, Memory>
    requires as_many { length agents.now ≡ length code.now.agents }
    requires few { length agents.now ≤ AGENTS }
    requires rise { AllPairs StallBefore script.now.stalls }
    requires places { (agent : ℕ) (known : AgentState) → slice_get agents.now agent ≡ Some known → CanBegin code.now agent known.begun }
    ensures count { IfOk result (λ runners. length runners.items ≡ length agents.now) }
    ensures behind { IfOk result (λ runners. AreBehind code.now script.now agents.now runners.items) }
{
    let mut runners = Vec::new(alloc);
    'agents: for agent in 0..agents.len() {
        runners.push(runner_behind(alloc, code, script, agent as u32, &agents[agent])?)?;
    }
    Ok(runners)
}

/// By variable, how far back its ring was reached for.
fn reaches_of(alloc: Global, variables: &[VarOpening]) -> Result<Vec<Option<u32>>, Memory>
    ensures { IfOk result (λ reaches. reaches.items ≡ map (λ v. v.reach) variables.now) }
{
    Ok(variables.iter().map(|v| v.reach).collect(alloc)?)
}

/// By stream, the greatest number of messages that it held.
fn helds_of(alloc: Global, streams: &[StreamOpening]) -> Result<Vec<u32>, Memory>
    ensures { IfOk result (λ helds. helds.items ≡ map (λ s. s.held) streams.now) }
{
    Ok(streams.iter().map(|s| s.held).collect(alloc)?)
}

/// How many orders have come into force by a cycle.
fn passed_at(orders: &[Order], cycle: u64) -> usize
    requires { AllPairs (λ o p. o.cycle < p.cycle) orders.now }
    ensures { AreInForce orders.now result cycle }
{
    let mut passed = 0;
    'orders: while passed < orders.len() && orders[passed].cycle <= cycle {
        passed += 1;
    }
    passed
}

/// A processor that did so many cycles, for which none of so many agents waits.
fn server_behind(alloc: Global, agents: u32, passed: usize, cycles: u64) -> Result<Server, Memory>
    ensures { IfOk result (λ server. server ≡ server_behind agents passed cycles) }
{
    Ok(Server {
        cycles,
        ready: Ready::new(alloc, agents)?,
        passed,
        chosen: None,
        stale: true,
    })
}

/// So many processors that did so many cycles.
fn servers_behind(
    alloc: Global,
    processors: u32,
    agents: u32,
    passed: usize,
    cycles: u64,
) -> Result<Vec<Server>, Memory>
    ensures { IfOk result (λ servers. servers.items ≡ replicate processors (server_behind agents passed cycles)) }
{
    let mut servers = Vec::new(alloc);
    'servers: for _ in 0..processors {
        servers.push(server_behind(alloc, agents, passed, cycles)?)?;
    }
    Ok(servers)
}

/// The engine of these parts, once the actions have started that start at the date of the state: nothing is left to tell of it.
fn opened(
    plan: Plan,
    script: Script,
    opening: Opening,
    shared: Shared,
    runners: Vec<Runner>,
    servers: Vec<Server>,
    parts: Parts,
) -> Engine
    requires plan { IsPlan plan }
    requires inputs { AreInputs plan.unit shared.inputs.lists }
    requires script { IsScript plan.unit script }
    requires shape { HasShapeOf plan opening }
    requires sound { IsSoundFor plan (behind plan opening) shared.inputs.lists (stalls_of script) }
    requires stands { (turns : ℕ → List (Option Turn)) → ((agent number : ℕ) → units agent number (turns agent) ≡ 0)
        → SharedStands (opened_of plan (behind plan opening) shared.inputs.lists (stalls_of script)) plan.sizes turns (opening.date + 1) shared }
    requires unsent { (agent : ℕ) (outbox : Outboxed) → slice_get shared.outboxes.items agent ≡ Some outbox → outbox.sends ≡ [] }
    requires untaken { All (λ n. n ≡ 0) shared.taken.items }
    requires moved { (test : ℕ → Bool) → NamesAll test (length shared.seats.items) 0 shared.movers.moved.agents }
    requires run { length runners.items ≡ length plan.unit.agents }
    requires behind { AreBehind plan.code script opening.agents runners.items }
    requires servers { (passed : ℕ) × AreInForce script.orders passed (opening.date * plan.unit.quantum)
        × (servers.items ≡ replicate (processors plan.unit) (server_behind (length plan.unit.agents) passed (opening.date * plan.unit.quantum))) }
    requires reaches { parts.reaches.items ≡ map (λ v. v.reach) opening.variables }
    requires helds { parts.helds.items ≡ map (λ s. s.held) opening.streams }
    requires declared { parts.declared.items ≡ range_with_len 0 (length plan.unit.agents) }
    ensures { result ≡ begun_behind plan shared.inputs.lists script opening }
{
    fitting();
    openings();
    regular();
    reaches();
    one_of_them();
    let mut runners = runners;
    let mut servers = servers;
    start_all(
        shared.movers.moved.agents(),
        shared.seats.as_slice(),
        plan.unit.agents.as_slice(),
        opening.date,
        &mut runners,
        &mut servers,
    );
    let unit = &plan.unit;
    let place = unit.agents.len() + unit.variables.len() + unit.streams.len();
    Engine {
        plan,
        script,
        opening: Some(opening),
        shared,
        runners,
        servers,
        reaches: parts.reaches,
        helds: parts.helds,
        declared: parts.declared,
        place,
        shown: 0,
        given: 0,
    }
}

/// What else an engine begins with: its figures, and all agents in the order of declaration.
#[derive(Drop)]
struct Parts {
    reaches: Vec<Option<u32>>,
    helds: Vec<u32>,
    declared: Vec<u32>,
}

/// The figures of a state, and so many agents in the order of declaration.
fn parts_of(alloc: Global, opening: &Opening, agents: u32) -> Result<Parts, Memory>
    ensures reaches { IfOk result (λ parts. parts.reaches.items ≡ map (λ v. v.reach) opening.now.variables) }
    ensures helds { IfOk result (λ parts. parts.helds.items ≡ map (λ s. s.held) opening.now.streams) }
    ensures declared { IfOk result (λ parts. parts.declared.items ≡ range_with_len 0 agents) }
{
    Ok(Parts {
        reaches: reaches_of(alloc, opening.variables.as_slice())?,
        helds: helds_of(alloc, opening.streams.as_slice())?,
        declared: declared_of(alloc, agents)?,
    })
}

/// The cycles before the date of a state.
pub(crate) fn cycles_before(plan: &Plan, opening: &Opening) -> u64
    requires bare { IsBare plan.now.unit }
    requires near { opening.now.date ≤ plan.now.until }
    ensures { result ≡ opening.now.date * plan.now.unit.quantum }
{
    prove!(opening.date <= u64::from(plan.until));
    opening.date * u64::from(plan.unit.quantum)
}

/// The processors of a plan, which did so many cycles.
fn servers_of(
    alloc: Global,
    plan: &Plan,
    script: &Script,
    cycles: u64,
) -> Result<Vec<Server>, Memory>
    requires bare { IsBare plan.now.unit }
    requires rise { AllPairs (λ o p. o.cycle < p.cycle) script.now.orders }
    ensures { IfOk result (λ servers. (passed : ℕ) × AreInForce script.now.orders passed cycles
        × (servers.items ≡ replicate (processors plan.now.unit) (server_behind (length plan.now.unit.agents) passed cycles))) }
{
    let passed = passed_at(script.orders.as_slice(), cycles);
    let agents = plan.unit.agents.len() as u32;
    servers_behind(alloc, processors_of(&plan.unit), agents, passed, cycles)
}

/// By agent of a plan, what it has behind the date of a state.
fn runners_of(
    alloc: Global,
    plan: &Plan,
    script: &Script,
    opening: &Opening,
) -> Result<Vec<Runner>, Memory>
    requires plan { IsPlan plan.now }
    requires rise { AllPairs StallBefore script.now.stalls }
    requires agents { length opening.now.agents ≡ length plan.now.unit.agents }
    requires places { (agent : ℕ) (known : AgentState) → slice_get opening.now.agents agent ≡ Some known → CanBegin plan.now.code agent known.begun }
    ensures run { IfOk result (λ runners. length runners.items ≡ length plan.now.unit.agents) }
    ensures behind { IfOk result (λ runners. AreBehind plan.now.code script.now opening.now.agents runners.items) }
{
    runners_behind(alloc, &plan.code, script, opening.agents.as_slice())
}

impl Engine {
    /// An engine behind the date of a state. All the memory that a run takes is taken here; the only error is want of it.
    pub(crate) fn open(
        alloc: Global,
        plan: Plan,
        opening: Opening,
        inputs: Inputs,
        script: Script,
    ) -> Result<Engine, Memory>
        requires plan { IsPlan plan }
        requires inputs { AreInputs plan.unit inputs.lists }
        requires script { IsScript plan.unit script }
        requires shape { HasShapeOf plan opening }
        requires sound { IsSoundFor plan (behind plan opening) inputs.lists (stalls_of script) }
        ensures { IfOk result (λ engine. engine ≡ begun_behind plan inputs.lists script opening) }
    {
        fitting();
        openings();
        regular();
        let cycles = cycles_before(&plan, &opening);
        let runners = runners_of(alloc, &plan, &script, &opening)?;
        let servers = servers_of(alloc, &plan, &script, cycles)?;
        let parts = parts_of(alloc, &opening, plan.unit.agents.len() as u32)?;
        let shared = Shared::behind(alloc, &plan, &opening, inputs)?;
        Ok(opened(plan, script, opening, shared, runners, servers, parts))
    }
}
