//! What a run leaves that is done.
ghost use Rattle.std.specs.Prelude.{◌≡◌, ℕ, ◌+◌, ◌<◌, ◌≤◌, [], Err, IfOk, MatchOption, OnOk, Some, get_or, length, map};
ghost use Rattle.std.specs.List.{All, range_with_len};
ghost use Rattle.psy_base.specs.declared.limits.TheConstants.{AGENTS};
ghost use Rattle.psy_code.specs.declared.code.CopyInit.{CopyInit as copy};
ghost use Rattle.psy_dates.specs.Beginnings.{behind};
ghost use Rattle.psy_history.specs.Resuming.{IsQuiet};
ghost use Rattle.psy_kernel.specs.declared.fault.FreezeFault.TheVariants.{Busy};
ghost use Rattle.psy_kernel.specs.Engines.{history_of};
ghost use Rattle.psy_kernel.specs.Freezing.{BeginWithFirst, IsFirstBusy, IsFirstUnderWay, MayLeave, NoneUnderWay, action_left, agent_by, agent_left};
ghost use Rattle.psy_kernel.specs.Freezing.{begun_left, copies_left, is_under_way, left_on, state_by, stream_left, variable_left};
ghost use Rattle.psy_kernel.specs.Resuming.{HasShapeOf};
ghost use Rattle.psy_meaning.specs.CodeWays.{agent_code_at};

use super::{Engine, Runner};
use crate::fault::FreezeFault;
use psy_base::{Items, Memory, Message};
use psy_code::laws::lasting;
use psy_code::{AgentCode, Code, CopyInit};
use psy_dates::{AgentOpening, Begun, NextAction, Opening, Phase, Seat, StreamOpening, VarOpening};
use psy_history::laws::{fitting, given, on_time, one_of_them, openings, reaches, regular};
use psy_machine::Machine;
use psy_queue::Queue;
use psy_ring::Ring;
use std::alloc::Global;

/// Whether the action of a seat is under way at a date.
fn is_under_way(seat: &Seat, date: u64) -> bool
    ensures { result ≡ is_under_way date seat.now }
{
    match seat.phase {
        Phase::Waiting | Phase::Silent => false,
        Phase::Acting => seat.start != date,
        Phase::Ended | Phase::Stopped => true,
    }
}

/// The first of the seats whose action is under way at a date.
fn first_under_way(seats: &[Seat], date: u64) -> Option<u32>
    requires { length seats.now ≤ AGENTS }
    ensures { MatchOption result (NoneUnderWay date seats.now (length seats.now)) (IsFirstUnderWay date seats.now) }
{
    'agents: for agent in 0..seats.len() {
        if is_under_way(&seats[agent], date) {
            return Some(agent as u32);
        }
    }
    None
}

/// By working copy, the value of its variable that was committed last.
fn copies_left(alloc: Global, own: &[CopyInit], committed: &[i32]) -> Result<Items<i32>, Memory>
    requires { All (λ (c : copy). c.variable < length committed.now) own.now }
    ensures { IfOk result (λ copies. copies ≡ copies_left own.now committed.now) }
{
    let mut copies = Items::new(alloc);
    'copies: for place in 0..own.len() {
        copies.push(committed[own[place].variable as usize])?;
    }
    Ok(copies)
}

/// The action that an agent starts, if it starts one.
fn action_left(alloc: Global, seat: &Seat, machine: &Machine) -> Result<Option<NextAction>, Memory>
    ensures { IfOk result (λ action. action ≡ action_left seat.now machine.now.machine.home.cells) }
{
    if !matches!(seat.phase, Phase::Acting) {
        return Ok(None);
    }
    Ok(Some(NextAction {
        number: seat.number,
        point: seat.point,
        cells: Items::from_slice(alloc, machine.cells())?,
    }))
}

/// What an agent has once its first date has come.
fn begun_left(
    alloc: Global,
    code: &AgentCode,
    committed: &[i32],
    seat: &Seat,
    machine: &Machine,
) -> Result<Option<Begun>, Memory>
    requires { MayLeave code.now committed.now }
    ensures { IfOk result (λ begun. begun ≡ begun_left code.now.copies committed.now seat.now machine.now.machine.home.cells) }
{
    if matches!(seat.phase, Phase::Waiting) {
        return Ok(None);
    }
    Ok(Some(Begun {
        copies: copies_left(alloc, code.copies.as_slice(), committed)?,
        action: action_left(alloc, seat, machine)?,
    }))
}

/// What is left of an agent.
fn agent_left(
    alloc: Global,
    code: &AgentCode,
    committed: &[i32],
    seat: &Seat,
    runner: &Runner,
) -> Result<AgentOpening, Memory>
    requires { MayLeave code.now committed.now }
    ensures { IfOk result (λ agent. agent ≡ agent_by code.now committed.now seat.now (Some runner.now)) }
{
    Ok(AgentOpening {
        begun: begun_left(alloc, code, committed, seat, &runner.machine)?,
        count: runner.figure.count,
        slack: runner.figure.slack,
    })
}

/// By agent, what is left of it.
fn agents_left(
    alloc: Global,
    code: &Code,
    committed: &[i32],
    seats: &[Seat],
    runners: &[Runner],
) -> Result<Items<AgentOpening>, Memory>
    requires coded { length code.now.agents ≡ length runners.now }
    requires seated { length seats.now ≡ length runners.now }
    requires may { (agent : ℕ) → agent < length runners.now → MayLeave (agent_code_at code.now agent) committed.now }
    ensures { IfOk result (λ agents. agents ≡ map (agent_left code.now committed.now seats.now runners.now) (range_with_len 0 (length runners.now))) }
{
    let codes = code.agents.as_slice();
    let mut agents = Items::new(alloc);
    'agents: for agent in 0..runners.len() {
        agents.push(agent_left(
            alloc,
            &codes[agent],
            committed,
            &seats[agent],
            &runners[agent],
        )?)?;
    }
    Ok(agents)
}

/// The values that a ring holds, newest first.
fn values_left(alloc: Global, size: u32, ring: &Ring) -> Result<Items<i32>, Memory>
    requires { length ring.now ≡ size }
    ensures { IfOk result (λ values. values ≡ ring.now) }
{
    let mut values = Items::new(alloc);
    'values: for age in 0..size {
        values.push(ring.look(age))?;
    }
    Ok(values)
}

/// By variable, what is left of it.
fn variables_left(
    alloc: Global,
    sizes: &[u32],
    rings: &[Ring],
    reaches: &[Option<u32>],
) -> Result<Items<VarOpening>, Memory>
    requires sized { length sizes.now ≡ length rings.now }
    requires reached { length reaches.now ≡ length rings.now }
    requires sizes { (variable : ℕ) → variable < length rings.now → length (get_or rings.now variable []) ≡ get_or sizes.now variable 0 }
    ensures { IfOk result (λ variables. variables ≡ map (variable_left rings.now reaches.now) (range_with_len 0 (length rings.now))) }
{
    let mut variables = Items::new(alloc);
    'variables: for variable in 0..rings.len() {
        variables.push(VarOpening {
            values: values_left(alloc, sizes[variable], &rings[variable])?,
            reach: reaches[variable],
        })?;
    }
    Ok(variables)
}

/// The messages that a queue holds, in order.
fn messages_left(alloc: Global, queue: &Queue) -> Result<Items<Message>, Memory>
    ensures { IfOk result (λ messages. messages ≡ queue.now.messages) }
{
    let mut messages = Items::new(alloc);
    'messages: for place in 0..queue.held() {
        messages.push(queue.message(place))?;
    }
    Ok(messages)
}

/// By stream, what is left of it.
fn streams_left(
    alloc: Global,
    queues: &[Queue],
    helds: &[u32],
) -> Result<Items<StreamOpening>, Memory>
    requires { length helds.now ≡ length queues.now }
    ensures { IfOk result (λ streams. streams ≡ map (stream_left queues.now helds.now) (range_with_len 0 (length queues.now))) }
{
    let mut streams = Items::new(alloc);
    'streams: for stream in 0..queues.len() {
        streams.push(StreamOpening {
            held: helds[stream],
            messages: messages_left(alloc, &queues[stream])?,
        })?;
    }
    Ok(streams)
}

impl Engine {
    /// The first agent whose action is under way at the last date, once that is done.
    fn first_busy(&self) -> Option<u32>
        requires over { self.now.dates ≡ self.now.plan.until + 1 }
        ensures { MatchOption result (IsQuiet (history_of self.now) self.now.plan.until) (IsFirstBusy (history_of self.now) self.now.plan.until) }
    {
        fitting();
        openings();
        regular();
        given();
        one_of_them();
        first_under_way(&self.shared.seats, u64::from(self.plan.until))
    }

    /// The one state of what the run leaves, once its last date is done and no action is under way there.
    fn left(&self, alloc: Global) -> Result<Opening, Memory>
        requires over { self.now.dates ≡ self.now.plan.until + 1 }
        requires quiet { IsQuiet (history_of self.now) self.now.plan.until }
        ensures shape { IfOk result (HasShapeOf self.now.plan) }
        ensures state { IfOk result (λ opening. opening ≡ state_by self.now.plan (left_on self.now)) }
        ensures opened { BeginWithFirst self.now.plan → IfOk result (λ opening. behind self.now.plan opening ≡ left_on self.now) }
    {
        fitting();
        openings();
        regular();
        lasting();
        given();
        on_time();
        one_of_them();
        reaches();
        let shared = &self.shared;
        Ok(Opening {
            date: u64::from(self.plan.until),
            agents: agents_left(
                alloc,
                &self.plan.code,
                &shared.committed,
                &shared.seats,
                &self.runners,
            )?,
            variables: variables_left(
                alloc,
                self.plan.sizes.rings.as_slice(),
                &shared.rings,
                &self.reaches,
            )?,
            streams: streams_left(alloc, &shared.queues, &self.helds)?,
        })
    }

    /// The one state of what the run leaves, once its last date is done. Busy comes exactly where that date isn't quiet, with the first agent whose
    /// action is under way there.
    pub(crate) fn freeze(&self, alloc: Global) -> Result<Opening, FreezeFault>
        requires over { self.now.dates ≡ self.now.plan.until + 1 }
        ensures quiet { OnOk result (IsQuiet (history_of self.now) self.now.plan.until) }
        ensures busy { (agent : ℕ) → result ≡ Err (Busy agent) → IsFirstBusy (history_of self.now) self.now.plan.until agent }
        ensures shape { IfOk result (HasShapeOf self.now.plan) }
        ensures state { IfOk result (λ opening. opening ≡ state_by self.now.plan (left_on self.now)) }
        ensures opened { BeginWithFirst self.now.plan → IfOk result (λ opening. behind self.now.plan opening ≡ left_on self.now) }
    {
        match self.first_busy() {
            Some(agent) => Err(FreezeFault::Busy(agent)),
            None => Ok(self.left(alloc)?),
        }
    }
}
