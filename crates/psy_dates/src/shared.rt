//! What all agents share: seats, committed values, rings, queues and outboxes.
ghost use Rattle.std.specs.Prelude.{◌≡◌, ℕ, ◌<◌, ◌≤◌, List, [], IfOk, Some, get_or, length, map, pos, replicate, slice_get};
ghost use Rattle.std.specs.List.{All};
ghost use Rattle.psy_base.specs.declared.limits.TheConstants.{QUEUE, RING};
ghost use Rattle.psy_dates.specs.declared.seat.Phase.TheVariants as phase;
ghost use Rattle.psy_budget.specs.declared.charge.Stall.{Stall};
ghost use Rattle.psy_history.specs.Compiled.{AreInputs};
ghost use Rattle.psy_dates.specs.Messages.{nowhere};
ghost use Rattle.psy_dates.specs.Plans.{IsPlan, system_of};
ghost use Rattle.psy_dates.specs.Standing.{SharedStands};

use crate::calendar::Calendar;
use crate::movers::Movers;
use crate::outbox::Outbox;
use crate::plan::Plan;
use crate::seat::{Phase, Seat};
use psy_base::{Items, Memory};
use psy_history::Inputs;
use psy_queue::Queue;
use psy_ring::Ring;
use psy_tree::VarDecl;
use std::alloc::Global;

/// What all agents share.
#[derive(Drop)]
pub struct Shared {
    /// By variable, the values that it published last.
    pub rings: Vec<Ring>,
    /// By stream, the messages that it holds.
    pub queues: Vec<Queue>,
    /// By agent, what its action sent so far.
    pub outboxes: Vec<Outbox>,
    /// By stream, how many of its messages the receiver's action took so far.
    pub taken: Vec<u32>,
    /// By variable, the working copy of an owner that has ended its action.
    pub ended: Vec<i32>,
    /// By variable, the value committed last.
    pub committed: Vec<i32>,
    /// By agent, where it is.
    pub seats: Vec<Seat>,
    pub inputs: Inputs,
    /// By clock its first date that isn't done.
    pub calendar: Calendar,
    /// Who moved at the date done last, and when the next one does.
    pub movers: Movers,
    /// The date done last; None before date 0.
    pub date: Option<u64>,
}

/// By variable, its first value.
pub fn first_values(alloc: Global, variables: &[VarDecl]) -> Result<Vec<i32>, Memory>
    ensures { IfOk result (λ values. values.items ≡ map (λ v. v.init) variables.now) }
{
    Ok(variables.iter().map(|v| v.init).collect(alloc)?)
}

/// By variable, a ring of its size, filled with its first value.
fn first_rings(alloc: Global, variables: &[VarDecl], sizes: &[u32]) -> Result<Vec<Ring>, Memory>
    requires sized { length sizes.now ≡ length variables.now }
    requires places { All (λ size. (1 ≤ size) × (size ≤ RING)) sizes.now }
    ensures count { IfOk result (λ rings. length rings.items ≡ length variables.now) }
    ensures filled { IfOk result (λ rings. (variable : ℕ) → variable < length variables.now
        → slice_get rings.items variable ≡ Some (replicate (get_or sizes.now variable 0) (get_or (map (λ v. v.init) variables.now) variable (pos 0)))) }
{
    let mut rings = Vec::with_capacity(alloc, variables.len())?;
    'variables: for variable in 0..variables.len() {
        rings.push(Ring::new(alloc, sizes[variable], variables[variable].init)?)?;
    }
    Ok(rings)
}

/// By stream, an empty queue of its size.
fn first_queues(alloc: Global, sizes: &[u32]) -> Result<Vec<Queue>, Memory>
    requires { All (λ size. size ≤ QUEUE) sizes.now }
    ensures count { IfOk result (λ queues. length queues.items ≡ length sizes.now) }
    ensures empty { IfOk result (λ queues. (stream : ℕ) → stream < length sizes.now
        → slice_get queues.items stream ≡ Some (record { size = get_or sizes.now stream 0; messages = [] })) }
{
    let mut queues = Vec::with_capacity(alloc, sizes.len())?;
    'streams: for stream in 0..sizes.len() {
        queues.push(Queue::new(alloc, sizes[stream])?)?;
    }
    Ok(queues)
}

/// By agent, an empty outbox of its size.
pub fn first_outboxes(alloc: Global, sizes: &[u32]) -> Result<Vec<Outbox>, Memory>
    ensures count { IfOk result (λ outboxes. length outboxes.items ≡ length sizes.now) }
    ensures empty { IfOk result (λ outboxes. (agent : ℕ) → agent < length sizes.now
        → slice_get outboxes.items agent ≡ Some (record { size = get_or sizes.now agent 0; sends = [] })) }
{
    let mut outboxes = Vec::with_capacity(alloc, sizes.len())?;
    'agents: for agent in 0..sizes.len() {
        outboxes.push(Outbox::new(alloc, sizes[agent])?)?;
    }
    Ok(outboxes)
}

/// For each of so many streams, that nothing was taken.
pub fn first_takes(alloc: Global, streams: usize) -> Result<Vec<u32>, Memory>
    ensures { IfOk result (λ taken. (length taken.items ≡ streams) × All (λ n. n ≡ 0) taken.items) }
{
    Ok(vec![in alloc; 0; streams]?)
}

/// The seat of an agent that hasn't begun.
pub fn waiting() -> Seat
    ensures { result ≡ nowhere }
{
    Seat {
        phase: Phase::Waiting,
        number: 0,
        point: 0,
        start: 0,
        deadline: 0,
        end: 0,
        reached: 0,
        trap: None,
    }
}

/// A seat for each of so many agents, none of which has begun.
fn first_seats(alloc: Global, agents: usize) -> Result<Vec<Seat>, Memory>
    ensures { IfOk result (λ seats. (length seats.items ≡ agents) × All (λ seat. seat.phase ≡ phase.Waiting) seats.items) }
{
    let seat = waiting();
    Ok(vec![in alloc; seat; agents]?)
}

impl Shared {
    /// What the agents of a plan share before date 0. The only error is want of memory.
    pub fn new(alloc: Global, plan: &Plan, inputs: Inputs) -> Result<Shared, Memory>
        requires plan { IsPlan plan.now }
        requires inputs { AreInputs plan.now.unit inputs.lists }
        ensures stands { (stalls : ℕ → List Stall) → IfOk result (SharedStands (system_of plan.now inputs.lists stalls) plan.now.sizes (λ agent. []) 0) }
        ensures inputs { IfOk result (λ shared. shared.inputs ≡ inputs) }
    {
        Ok(Shared {
            rings: first_rings(
                alloc,
                plan.unit.variables.as_slice(),
                plan.sizes.rings.as_slice(),
            )?,
            queues: first_queues(alloc, plan.sizes.queues.as_slice())?,
            outboxes: first_outboxes(alloc, plan.sizes.outboxes.as_slice())?,
            taken: first_takes(alloc, plan.unit.streams.len())?,
            ended: first_values(alloc, plan.unit.variables.as_slice())?,
            committed: first_values(alloc, plan.unit.variables.as_slice())?,
            seats: first_seats(alloc, plan.unit.agents.len())?,
            inputs,
            calendar: Calendar::new(alloc, plan.unit.clocks.as_slice())?,
            movers: Movers::new(alloc, plan.unit.agents.len() as u32)?,
            date: None,
        })
    }
}
