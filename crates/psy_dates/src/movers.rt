//! Who moves at a date: the agents whose seats change there.

ghost use Rattle.std.specs.Prelude.{◌≡◌, ◌≢◌, ℕ, ◌<◌, ◌≤◌, ◌^◌, Bool, IfOk, Some, [], false, length, slice_get};
ghost use Rattle.psy_meaning.specs.Units.{IsBare};
ghost use Rattle.psy_dates.specs.declared.seat.Seat.{Seat as Place};
ghost use Rattle.psy_dates.specs.declared.seat.Phase.TheVariants as phase;
ghost use Rattle.psy_dates.specs.Movers.{AreBefore, IsBefore, NamesAll, first_in, moves_by, moves_in};

use crate::due::first_of;
use crate::plan::Plan;
use crate::roll::Roll;
use crate::seat::{Phase, Seat};
use psy_base::Memory;
use std::alloc::Global;

/// Who moved at the date done last, and when the next one does.
#[derive(Drop)]
pub struct Movers {
    /// The agents whose seats changed at the date done last, in order.
    pub moved: Roll,
    /// No seat changes before this date.
    pub least: u64,
    /// Whether an agent was stopped.
    pub stopped: bool,
}

/// Whether the seat of an agent changes at a date.
fn moves(plan: &Plan, agent: usize, date: u64, seat: Seat) -> bool
    requires bare { IsBare plan.now.unit }
    requires agent { agent < length plan.now.unit.agents }
    ensures { result ≡ moves_by date (first_in plan.now agent) seat seat.phase }
{
    match seat.phase {
        Phase::Waiting => first_of(plan, agent) == date,
        Phase::Ended => seat.end == date,
        Phase::Stopped => seat.deadline <= date,
        Phase::Acting | Phase::Silent => false,
    }
}

/// The date at which the seat of an agent changes next, as far as is known: never where it is acting, or silent.
fn next_of(plan: &Plan, agent: usize, seat: Seat) -> u64
    requires bare { IsBare plan.now.unit }
    requires agent { agent < length plan.now.unit.agents }
    ensures { IsBefore result (first_in plan.now agent) seat seat.phase }
{
    match seat.phase {
        Phase::Waiting => first_of(plan, agent),
        Phase::Ended => seat.end,
        Phase::Stopped => seat.deadline,
        Phase::Acting | Phase::Silent => u64::MAX,
    }
}

/// Names the agents whose seats change at a date. No other seat changes before the date that this gives.
fn name_all(plan: &Plan, date: u64, seats: &[Seat], moved: &mut Roll) -> u64
    requires bare { IsBare plan.now.unit }
    requires seated { length seats.now ≡ length plan.now.unit.agents }
    requires few { length seats.now < 2 ^ 32 }
    requires room { length seats.now ≤ moved.old.size }
    requires none { moved.old.agents ≡ [] }
    ensures size { moved.new.size ≡ moved.old.size }
    ensures names { NamesAll (moves_in plan.now date seats.now) (length seats.now) 0 moved.new.agents }
    ensures others { (agent : ℕ) (seat : Place) → slice_get seats.now agent ≡ Some seat → moves_in plan.now date seats.now agent ≡ false
        → IsBefore result (first_in plan.now agent) seat seat.phase }
{
    let mut least = u64::MAX;
    'agents: for agent in 0..seats.len() {
        if moves(plan, agent, date, seats[agent]) {
            moved.add(agent as u32);
        } else {
            least = least.min(next_of(plan, agent, seats[agent]));
        }
    }
    least
}

/// Names so many agents, each of them.
fn name_each(agents: u32, moved: &mut Roll)
    requires none { moved.old.agents ≡ [] }
    requires room { agents ≤ moved.old.size }
    ensures size { moved.new.size ≡ moved.old.size }
    ensures names { (test : ℕ → Bool) → NamesAll test agents 0 moved.new.agents }
{
    'agents: for agent in 0..agents {
        moved.add(agent);
    }
}

/// Whether an agent is silent.
fn any_silent(seats: &[Seat]) -> bool
    ensures { result ≡ false → (agent : ℕ) (seat : Place) → slice_get seats.now agent ≡ Some seat → seat.phase ≢ phase.Silent }
{
    'agents: for agent in 0..seats.len() {
        if seats[agent].phase == Phase::Silent {
            return true;
        }
    }
    false
}

impl Movers {
    /// Nobody has moved yet. The only error is want of memory; no other call takes any.
    pub fn new(alloc: Global, agents: u32) -> Result<Movers, Memory>
        ensures { IfOk result (λ movers. movers ≡ record { moved = record { size = agents; agents = [] }; least = 0; stopped = false }) }
    {
        Ok(Movers {
            moved: Roll::new(alloc, agents)?,
            least: 0,
            stopped: false,
        })
    }

    /// The movers of a date that is done, where these are the seats behind it: each agent counts as one that moved, and any may
    /// move at the next date. The only error is want of memory.
    pub fn behind(alloc: Global, seats: &[Seat]) -> Result<Movers, Memory>
        requires few { length seats.now < 2 ^ 32 }
        ensures room { IfOk result (λ movers. movers.moved.size ≡ length seats.now) }
        ensures names { (test : ℕ → Bool) → IfOk result (λ movers. NamesAll test (length seats.now) 0 movers.moved.agents) }
        ensures least { IfOk result (λ movers. movers.least ≡ 0) }
        ensures stopped { IfOk result (λ movers. movers.stopped ≡ false
            → (agent : ℕ) (seat : Place) → slice_get seats.now agent ≡ Some seat → seat.phase ≢ phase.Silent) }
    {
        let agents = seats.len() as u32;
        let mut moved = Roll::new(alloc, agents)?;
        name_each(agents, &mut moved);
        Ok(Movers {
            moved,
            least: 0,
            stopped: any_silent(seats),
        })
    }

    /// Finds who moves at a date, and a date before which no other seat changes.
    pub fn find(&mut self, plan: &Plan, date: u64, seats: &[Seat])
        requires bare { IsBare plan.now.unit }
        requires seated { length seats.now ≡ length plan.now.unit.agents }
        requires few { length seats.now < 2 ^ 32 }
        requires room { length seats.now ≤ self.old.moved.size }
        requires before { AreBefore (first_in plan.now) self.old.least seats.now }
        ensures size { self.new.moved.size ≡ self.old.moved.size }
        ensures stopped { self.new.stopped ≡ self.old.stopped }
        ensures names { NamesAll (moves_in plan.now date seats.now) (length seats.now) 0 self.new.moved.agents }
        ensures others { (agent : ℕ) (seat : Place) → slice_get seats.now agent ≡ Some seat → moves_in plan.now date seats.now agent ≡ false
            → IsBefore self.new.least (first_in plan.now agent) seat seat.phase }
    {
        self.moved.clear();
        if self.least <= date {
            self.least = name_all(plan, date, seats, &mut self.moved);
        }
    }

    /// An agent's action is over, or goes on: this is its seat.
    pub fn tell(&mut self, seat: Seat)
        ensures moved { self.new.moved ≡ self.old.moved }
        ensures earlier { self.new.least ≤ self.old.least }
        ensures before { (first : ℕ) → seat.phase ≢ phase.Waiting → IsBefore self.new.least first seat seat.phase }
        ensures kept { self.new.stopped ≡ false → self.old.stopped ≡ false }
        ensures stopped { self.new.stopped ≡ false → seat.phase ≢ phase.Stopped }
    {
        match seat.phase {
            Phase::Ended => self.least = self.least.min(seat.end),
            Phase::Stopped => {
                self.least = self.least.min(seat.deadline);
                self.stopped = true;
            }
            Phase::Waiting | Phase::Acting | Phase::Silent => {}
        }
    }
}
