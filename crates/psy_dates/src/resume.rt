//! What all agents share behind the date of a state.

ghost use Rattle.std.specs.Prelude.{◌≡◌, ℕ, ◌+◌, ◌<◌, ◌≤◌, ◌^◌, ◌∷◌, ◌++◌, Bool, IfOk, List, Option, Some, [], true, length, get_or, pos, take, slice_get};
ghost use Rattle.std.specs.List.{All, AllPairs};
ghost use Rattle.psy_base.specs.declared.limits.TheConstants.{QUEUE, RING};
ghost use Rattle.psy_budget.specs.declared.charge.Stall.{Stall};
ghost use Rattle.psy_history.specs.Compiled.{AreInputs};
ghost use Rattle.psy_history.specs.Schedule.{Turn, units};
ghost use Rattle.psy_meaning.specs.Alike.{owned_copy, owned_from};
ghost use Rattle.psy_meaning.specs.Units.{IsBare};
ghost use Rattle.psy_queue.specs.Order.{comes_before};
ghost use Rattle.psy_queue.specs.declared.room.TheConstants.{MOST_PLACES};
ghost use Rattle.psy_tree.specs.Parts.{variable_at};
ghost use Rattle.psy_dates.specs.declared.opening.AgentOpening.{AgentOpening as AgentState};
ghost use Rattle.psy_dates.specs.declared.opening.StreamOpening.{StreamOpening as StreamState};
ghost use Rattle.psy_dates.specs.declared.opening.VarOpening.{VarOpening as VarState};
ghost use Rattle.psy_dates.specs.Beginnings.{behind, committed_by, committed_of, seat_behind, seat_of_action};
ghost use Rattle.psy_dates.specs.Calendars.{CalendarStands};
ghost use Rattle.psy_dates.specs.Movers.{NamesAll};
ghost use Rattle.psy_dates.specs.Moves.{timing_in};
ghost use Rattle.psy_dates.specs.Outboxes.{Outboxed};
ghost use Rattle.psy_dates.specs.Plans.{IsPlan, IsSoundFor, opened_of};
ghost use Rattle.psy_dates.specs.Standing.{SharedStands};

use crate::calendar::Calendar;
use crate::movers::Movers;
use crate::moves;
use crate::opening::{AgentOpening, Begun, NextAction, Opening, StreamOpening, VarOpening};
use crate::plan::Plan;
use crate::seat::{Phase, Seat};
use crate::shared::{Shared, first_outboxes, first_takes, first_values, waiting};
use psy_base::{Memory, Message};
use psy_history::Inputs;
use psy_history::laws::{fitting, openings, regular};
use psy_queue::Queue;
use psy_ring::Ring;
use psy_tree::VarDecl;
use std::alloc::Global;

/// Publishes the value at a place into a ring.
fn publish_at(ring: &mut Ring, values: &[i32], place: usize)
    requires { place < length values.now }
    ensures { ring.new ≡ take (length ring.old) (get_or values.now place (pos 0) ∷ ring.old) }
{
    ring.publish(values[place]);
}

/// Publishes values into a ring, the last one first.
fn publish_back(ring: &mut Ring, values: &[i32])
    ensures { ring.new ≡ take (length ring.old) (values.now ++ ring.old) }
{
    let mut place = values.len();
    'values: while place > 0 {
        place -= 1;
        publish_at(ring, values, place);
    }
}

/// A ring of these values, newest first.
fn ring_of(alloc: Global, values: &[i32]) -> Result<Ring, Memory>
    requires { (1 ≤ length values.now) × (length values.now ≤ RING) }
    ensures { IfOk result (λ ring. ring ≡ values.now) }
{
    let mut ring = Ring::new(alloc, values.len() as u32, 0)?;
    publish_back(&mut ring, values);
    Ok(ring)
}

/// By variable, a ring of the values that it published last.
fn rings_of(alloc: Global, variables: &[VarOpening]) -> Result<Vec<Ring>, Memory>
    requires { All (λ v. (1 ≤ length v.values) × (length v.values ≤ RING)) variables.now }
    ensures count { IfOk result (λ rings. length rings.items ≡ length variables.now) }
    ensures values { IfOk result (λ rings. (variable : ℕ) (known : VarState) → slice_get variables.now variable ≡ Some known
        → slice_get rings.items variable ≡ Some known.values) }
{
    let mut rings = Vec::with_capacity(alloc, variables.len())?;
    'variables: for variable in 0..variables.len() {
        rings.push(ring_of(alloc, variables[variable].values.as_slice())?)?;
    }
    Ok(rings)
}

/// A queue of these messages, with room for so many more.
fn queue_of(alloc: Global, size: u32, messages: &[Message]) -> Result<Queue, Memory>
    requires few { size + length messages.now ≤ MOST_PLACES }
    requires rise { AllPairs (λ m n. comes_before m n ≡ true) messages.now }
    ensures { IfOk result (λ queue. queue ≡ record { size = size + length messages.now; messages = messages.now }) }
{
    let mut queue = Queue::new(alloc, size + messages.len() as u32)?;
    'messages: for place in 0..messages.len() {
        queue.enter(messages[place]);
    }
    Ok(queue)
}

/// By stream, a queue of the messages that it holds, with room for as many more as its size.
fn queues_of(alloc: Global, sizes: &[u32], streams: &[StreamOpening]) -> Result<Vec<Queue>, Memory>
    requires sized { length sizes.now ≡ length streams.now }
    requires small { All (λ size. size ≤ QUEUE) sizes.now }
    requires few { All (λ s. length s.messages ≤ QUEUE) streams.now }
    requires rise { All (λ s. AllPairs (λ m n. comes_before m n ≡ true) s.messages) streams.now }
    ensures count { IfOk result (λ queues. length queues.items ≡ length streams.now) }
    ensures messages { IfOk result (λ queues. (stream : ℕ) (known : StreamState) → slice_get streams.now stream ≡ Some known
        → slice_get queues.items stream ≡ Some (record { size = get_or sizes.now stream 0 + length known.messages; messages = known.messages })) }
{
    let mut queues = Vec::with_capacity(alloc, streams.len())?;
    'streams: for stream in 0..streams.len() {
        queues.push(queue_of(alloc, sizes[stream], streams[stream].messages.as_slice())?)?;
    }
    Ok(queues)
}

/// How many of one variable an agent owns.
fn owned(variable: &VarDecl, agent: u32) -> usize
    ensures number { (number : ℕ) → result ≡ length (owned_copy agent number variable.now variable.now.owner) }
    ensures few { result ≤ 1 }
{
    match variable.owner {
        Some(owner) => usize::from(owner == agent),
        None => 0,
    }
}

/// How many of the variables before one an agent owns.
fn owned_before(variables: &[VarDecl], agent: u32, variable: usize) -> usize
    requires { variable ≤ length variables.now }
    ensures { result ≡ length (owned_from agent 0 (take variable variables.now)) }
{
    let mut count = 0;
    'variables: for place in 0..variable {
        count += owned(&variables[place], agent);
    }
    count
}

/// The value of a variable among those of all that its owner has; 0 where it is missing.
fn own_value(variables: &[VarDecl], agent: u32, variable: usize, values: &[i32]) -> i32
    requires { variable < length variables.now }
    ensures { result ≡ get_or values.now (length (owned_from agent 0 (take variable variables.now))) (pos 0) }
{
    match values.get(owned_before(variables, agent, variable)) {
        Some(value) => *value,
        None => 0,
    }
}

/// The value of a variable that its owner committed last.
fn value_of_owner(plan: &Plan, owner: u32, variable: usize, begun: &Option<Begun>) -> i32
    requires variable { variable < length plan.now.unit.variables }
    requires owner { (variable_at plan.now.unit variable).owner ≡ Some owner }
    ensures { result ≡ committed_by plan.now owner variable begun.now }
{
    match begun {
        Some(begun) => own_value(
            plan.unit.variables.as_slice(),
            owner,
            variable,
            begun.copies.as_slice(),
        ),
        None => plan.unit.variables.as_slice()[variable].init,
    }
}

/// The value of a variable that was committed last.
fn value_of(plan: &Plan, opening: &Opening, variable: usize) -> i32
    requires bare { IsBare plan.now.unit }
    requires agents { length opening.now.agents ≡ length plan.now.unit.agents }
    requires variable { variable < length plan.now.unit.variables }
    ensures { result ≡ committed_of plan.now opening.now variable (variable_at plan.now.unit variable).owner }
{
    let decl = &plan.unit.variables.as_slice()[variable];
    match decl.owner {
        Some(owner) => {
            let agent = &opening.agents.as_slice()[owner as usize];
            value_of_owner(plan, owner, variable, &agent.begun)
        }
        None => decl.init,
    }
}

/// By variable, the value that was committed last.
fn values_of(alloc: Global, plan: &Plan, opening: &Opening) -> Result<Vec<i32>, Memory>
    requires bare { IsBare plan.now.unit }
    requires agents { length opening.now.agents ≡ length plan.now.unit.agents }
    ensures count { IfOk result (λ values. length values.items ≡ length plan.now.unit.variables) }
    ensures committed { IfOk result (λ values. (variable : ℕ) → variable < length plan.now.unit.variables
        → slice_get values.items variable ≡ Some (committed_of plan.now opening.now variable (variable_at plan.now.unit variable).owner)) }
{
    let variables = plan.unit.variables.len();
    let mut values = Vec::with_capacity(alloc, variables)?;
    'variables: for variable in 0..variables {
        values.push(value_of(plan, opening, variable))?;
    }
    Ok(values)
}

/// The seat of an agent that starts this action at a date: silent where it starts none.
fn seat_by(
    plan: &Plan,
    calendar: &Calendar,
    agent: usize,
    date: u64,
    action: &Option<NextAction>,
) -> Seat
    requires bare { IsBare plan.now.unit }
    requires agent { agent < length plan.now.unit.agents }
    requires nexts { length plan.now.nexts ≡ length plan.now.unit.agents }
    requires calendar { CalendarStands plan.now.unit.clocks (date + 1) calendar.now }
    requires early { date ≤ 2 ^ 40 }
    ensures { result ≡ seat_of_action (timing_in plan.now agent) date action.now }
{
    match action {
        Some(action) => moves::begun(plan, calendar, agent, date, action.number, action.point),
        None => Seat {
            phase: Phase::Silent,
            deadline: date,
            ..waiting()
        },
    }
}

/// The seat of an agent behind a date.
fn seat_of(plan: &Plan, calendar: &Calendar, agent: usize, date: u64, begun: &Option<Begun>) -> Seat
    requires bare { IsBare plan.now.unit }
    requires agent { agent < length plan.now.unit.agents }
    requires nexts { length plan.now.nexts ≡ length plan.now.unit.agents }
    requires calendar { CalendarStands plan.now.unit.clocks (date + 1) calendar.now }
    requires early { date ≤ 2 ^ 40 }
    ensures { result ≡ seat_behind (timing_in plan.now agent) date begun.now }
{
    match begun {
        Some(begun) => seat_by(plan, calendar, agent, date, &begun.action),
        None => moves::moved(plan, calendar, agent, date, waiting()),
    }
}

/// By agent, its seat behind a date.
fn seats_of(
    alloc: Global,
    plan: &Plan,
    calendar: &Calendar,
    date: u64,
    agents: &[AgentOpening],
) -> Result<Vec<Seat>, Memory>
    requires bare { IsBare plan.now.unit }
    requires agents { length agents.now ≡ length plan.now.unit.agents }
    requires nexts { length plan.now.nexts ≡ length plan.now.unit.agents }
    requires calendar { CalendarStands plan.now.unit.clocks (date + 1) calendar.now }
    requires early { date ≤ 2 ^ 40 }
    ensures count { IfOk result (λ seats. length seats.items ≡ length agents.now) }
    ensures seats { IfOk result (λ seats. (agent : ℕ) (known : AgentState) → slice_get agents.now agent ≡ Some known
        → slice_get seats.items agent ≡ Some (seat_behind (timing_in plan.now agent) date known.begun)) }
{
    let mut seats = Vec::with_capacity(alloc, agents.len())?;
    'agents: for agent in 0..agents.len() {
        seats.push(seat_of(plan, calendar, agent, date, &agents[agent].begun))?;
    }
    Ok(seats)
}

impl Shared {
    /// What the agents of a plan share behind the date of a state. The only error is want of memory.
    pub fn behind(
        alloc: Global,
        plan: &Plan,
        opening: &Opening,
        inputs: Inputs,
    ) -> Result<Shared, Memory>
        requires plan { IsPlan plan.now }
        requires inputs { AreInputs plan.now.unit inputs.lists }
        requires early { opening.now.date < 2 ^ 40 }
        requires agents { length opening.now.agents ≡ length plan.now.unit.agents }
        requires variables { length opening.now.variables ≡ length plan.now.unit.variables }
        requires streams { length opening.now.streams ≡ length plan.now.unit.streams }
        requires sound { (stalls : ℕ → List Stall) × IsSoundFor plan.now (behind plan.now opening.now) inputs.lists stalls }
        // whatever turns give no cycle to an action
        ensures stands { (stalls : ℕ → List Stall) (turns : ℕ → List (Option Turn)) → IsSoundFor plan.now (behind plan.now opening.now) inputs.lists stalls
            → ((agent number : ℕ) → units agent number (turns agent) ≡ 0)
            → IfOk result (SharedStands (opened_of plan.now (behind plan.now opening.now) inputs.lists stalls) plan.now.sizes turns (opening.now.date + 1)) }
        // nothing was sent or taken yet
        ensures unsent { IfOk result (λ shared. (agent : ℕ) (outbox : Outboxed) → slice_get shared.outboxes.items agent ≡ Some outbox → outbox.sends ≡ []) }
        ensures untaken { IfOk result (λ shared. All (λ n. n ≡ 0) shared.taken.items) }
        // each agent counts as one that moved
        ensures moved { (test : ℕ → Bool) → IfOk result (λ shared. NamesAll test (length shared.seats.items) 0 shared.movers.moved.agents) }
        ensures inputs { IfOk result (λ shared. shared.inputs ≡ inputs) }
    {
        fitting();
        openings();
        regular();
        let calendar = Calendar::behind(alloc, plan.unit.clocks.as_slice(), opening.date)?;
        let seats = seats_of(
            alloc,
            plan,
            &calendar,
            opening.date,
            opening.agents.as_slice(),
        )?;
        let movers = Movers::behind(alloc, &seats)?;
        Ok(Shared {
            rings: rings_of(alloc, opening.variables.as_slice())?,
            queues: queues_of(
                alloc,
                plan.sizes.queues.as_slice(),
                opening.streams.as_slice(),
            )?,
            outboxes: first_outboxes(alloc, plan.sizes.outboxes.as_slice())?,
            taken: first_takes(alloc, plan.unit.streams.len())?,
            ended: first_values(alloc, plan.unit.variables.as_slice())?,
            committed: values_of(alloc, plan, opening)?,
            seats,
            inputs,
            calendar,
            movers,
            date: Some(opening.date),
        })
    }
}
