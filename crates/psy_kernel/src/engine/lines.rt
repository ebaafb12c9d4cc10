//! The lines of the date that was done last.
ghost use Rattle.std.specs.Prelude.{◌≡◌, ◌+◌, ◌^◌, ◌<◌, ◌≤◌, ℕ, Bool, List, Option, Some, IsNone, IsTrue, IsFalse, false, nat_lt};
ghost use Rattle.std.specs.Prelude.{filter, length, get_or, slice_get};
ghost use Rattle.std.specs.List.{All};
ghost use Rattle.psy_base.specs.declared.limits.TheConstants.{WORD_BYTES};
ghost use Rattle.psy_base.specs.declared.message.Message.{Message};
ghost use Rattle.psy_budget.specs.declared.charge.Stall.{Stall};
ghost use Rattle.psy_clock.specs.Dates.{IsClock};
ghost use Rattle.psy_history.specs.Actions.{Opening};
ghost use Rattle.psy_history.specs.Schedule.{Turn};
ghost use Rattle.psy_history.specs.Compiled.{AreInputs};
ghost use Rattle.psy_dates.specs.Calendars.{CalendarStands};
ghost use Rattle.psy_dates.specs.Movers.{NamesAll, falls_in};
ghost use Rattle.psy_dates.specs.Plans.{IsPlan, opened_of};
ghost use Rattle.psy_kernel.specs.Engines.{lines_on_date};
ghost use Rattle.psy_kernel.specs.Standing.{told_from};
ghost use Rattle.psy_kernel.specs.Telling.{IsNextTold, IsShownBy, IsToldBy, StandsBehind, TellsMessage, TellsStop, TellsValue, told_by};
ghost use Rattle.psy_tree.specs.Parts.{no_clock};

use super::Engine;
use psy_clock::Clock;
use psy_dates::{Calendar, Phase, Plan, Seat, Shared};
use psy_history::laws::{fitting, one_of_them, openings, queue_sizes, queues, regular};
use psy_log::{Line, Note};
use psy_queue::Queue;
use psy_tree::VarDecl;

/// Where the lines of a date go on: the place, and how many messages of the stream there were shown.
#[derive(Clone, Copy, Debug)]
struct Mark {
    place: usize,
    shown: u32,
}

/// The line of an agent's stop, where it fell silent at this date.
fn tell_stop(seat: &Seat, name: &[u8], date: u64, line: &mut Line) -> bool
    requires name { length name.now ≤ WORD_BYTES }
    ensures told { TellsStop seat.now name.now date result line.old line.new }
{
    if seat.phase != Phase::Silent || seat.deadline != date {
        return false;
    }
    match seat.trap {
        None => line.set(&Note::StopOverrun { date, agent: name }),
        Some(kind) => line.set(&Note::StopTrap {
            date,
            agent: name,
            kind,
        }),
    }
    true
}

/// The line of a variable's value, where an owner publishes it at this date.
fn tell_value(
    variable: &VarDecl,
    clocks: &[Clock],
    calendar: &Calendar,
    value: i32,
    date: u64,
    line: &mut Line,
) -> bool
    requires name { length variable.now.name ≤ WORD_BYTES }
    requires known { variable.now.clock < length clocks.now }
    requires clocks { All IsClock clocks.now }
    requires calendar { CalendarStands clocks.now (date + 1) calendar.now }
    requires early { date ≤ 2 ^ 40 }
    ensures told { TellsValue variable.now (get_or clocks.now variable.now.clock no_clock) value date result line.old line.new }
{
    if variable.owner.is_none() || !calendar.had(clocks, variable.clock, date) {
        return false;
    }
    line.set(&Note::Value {
        date,
        variable: variable.name.bytes(),
        value,
    });
    true
}

/// How many messages of a queue were visible before a date.
fn seen_before(queue: &Queue, date: u64) -> u32
    ensures { result ≡ length (filter (λ (m : Message). nat_lt m.visible date) queue.now.messages) }
{
    if date == 0 {
        return 0;
    }
    queue.seen(date - 1)
}

/// The line of a message that becomes visible at this date, behind so many others.
fn tell_message(queue: &Queue, name: &[u8], date: u64, shown: u32, line: &mut Line) -> bool
    requires name { length name.now ≤ WORD_BYTES }
    ensures told { TellsMessage queue.now.messages name.now date shown result line.old line.new }
    ensures room { IsTrue result → shown + 1 < 2 ^ 32 }
{
    // They stand in order, so behind those that were visible before.
    let held = queue.held();
    let seen = queue.seen(date);
    let at = u64::from(seen_before(queue, date)) + u64::from(shown);
    if at >= u64::from(seen) {
        return false;
    }
    prove!(seen <= held);
    line.set(&Note::Message {
        date,
        stream: name,
        value: queue.value(at as u32),
    });
    true
}

/// The line of what is told of a date at a place: an agent's, or behind the agents a variable's.
fn tell_place(plan: &Plan, shared: &Shared, date: u64, place: usize, line: &mut Line) -> bool
    requires plan { IsPlan plan.now }
    requires inputs { AreInputs plan.now.unit shared.now.inputs.lists }
    requires seated { length shared.now.seats.items ≡ length plan.now.unit.agents }
    requires valued { length shared.now.committed.items ≡ length plan.now.unit.variables }
    requires calendar { CalendarStands plan.now.unit.clocks (date + 1) shared.now.calendar }
    requires early { date ≤ 2 ^ 40 }
    requires within { place < length plan.now.unit.agents + length plan.now.unit.variables }
    ensures told { (opening : Opening) (stalls : ℕ → List Stall) (turns : ℕ → List (Option Turn))
        → StandsBehind plan.now opening stalls turns date shared.now
        → IsToldBy (opened_of plan.now opening shared.now.inputs.lists stalls) date
        (told_by (opened_of plan.now opening shared.now.inputs.lists stalls) date place) result line.old line.new }
    ensures kept { IsFalse result → line.new ≡ line.old }
{
    fitting();
    openings();
    regular();
    let agents = plan.unit.agents.as_slice();
    if place < agents.len() {
        return tell_stop(&shared.seats[place], agents[place].name.bytes(), date, line);
    }
    let at = place - agents.len();
    let variable = &plan.unit.variables.as_slice()[at];
    tell_value(
        variable,
        plan.unit.clocks.as_slice(),
        &shared.calendar,
        shared.committed[at],
        date,
        line,
    )
}

/// The first agent from a place on that these name, which rise; the place behind all agents where there is none.
fn next_mover(movers: &[u32], place: usize, agents: usize) -> usize
    requires within { place ≤ agents }
    requires known { All (λ agent. agent < agents) movers.now }
    ensures within { (place ≤ result) × (result ≤ agents) }
    ensures between { (test : ℕ → Bool) → NamesAll test agents 0 movers.now → (agent : ℕ) → place ≤ agent → agent < result → test agent ≡ false }
{
    'movers: for at in 0..movers.len() {
        let agent = movers[at] as usize;
        if agent >= place {
            return agent;
        }
    }
    agents
}

/// The first place from one on at which a line may be told: an agent that didn't move at the date tells none.
fn may_tell(plan: &Plan, shared: &Shared, date: u64, place: usize) -> usize
    requires plan { IsPlan plan.now }
    requires inputs { AreInputs plan.now.unit shared.now.inputs.lists }
    requires seated { length shared.now.seats.items ≡ length plan.now.unit.agents }
    requires movers { NamesAll (falls_in (date + 1) shared.now.seats.items) (length plan.now.unit.agents) 0 shared.now.movers.moved.agents }
    requires within { place ≤ length plan.now.unit.agents + length plan.now.unit.variables }
    ensures within { (place ≤ result) × (result ≤ length plan.now.unit.agents + length plan.now.unit.variables) }
    ensures told { (opening : Opening) (stalls : ℕ → List Stall) (turns : ℕ → List (Option Turn))
        → StandsBehind plan.now opening stalls turns date shared.now
        → told_from (opened_of plan.now opening shared.now.inputs.lists stalls) date result 0
        ≡ told_from (opened_of plan.now opening shared.now.inputs.lists stalls) date place 0 }
{
    fitting();
    openings();
    regular();
    let agents = plan.unit.agents.len();
    if place >= agents {
        return place;
    }
    next_mover(shared.movers.moved.agents(), place, agents)
}

/// The first line of an agent or a variable that is told of a date from a place on, and the place behind it.
fn tell_next(plan: &Plan, shared: &Shared, date: u64, place: usize, line: &mut Line) -> Option<Mark>
    requires plan { IsPlan plan.now }
    requires inputs { AreInputs plan.now.unit shared.now.inputs.lists }
    requires seated { length shared.now.seats.items ≡ length plan.now.unit.agents }
    requires movers { NamesAll (falls_in (date + 1) shared.now.seats.items) (length plan.now.unit.agents) 0 shared.now.movers.moved.agents }
    requires valued { length shared.now.committed.items ≡ length plan.now.unit.variables }
    requires calendar { CalendarStands plan.now.unit.clocks (date + 1) shared.now.calendar }
    requires early { date ≤ 2 ^ 40 }
    requires within { place ≤ length plan.now.unit.agents + length plan.now.unit.variables }
    ensures told { (opening : Opening) (stalls : ℕ → List Stall) (turns : ℕ → List (Option Turn))
        → StandsBehind plan.now opening stalls turns date shared.now
        → IsNextTold (opened_of plan.now opening shared.now.inputs.lists stalls) date
        (length plan.now.unit.agents + length plan.now.unit.variables) place 0 result line.old line.new }
    ensures kept { IsNone result → line.new ≡ line.old }
{
    let agents = plan.unit.agents.len();
    let places = agents + plan.unit.variables.len();
    let mut at = may_tell(plan, shared, date, place);
    'walking: while at < places {
        // Where no clock has the date, no variable publishes.
        if at == agents && !shared.calendar.any_had(plan.unit.clocks.as_slice(), date) {
            return None;
        }
        let told = tell_place(plan, shared, date, at, line);
        at += 1;
        if told {
            return Some(Mark {
                place: at,
                shown: 0,
            });
        }
        at = may_tell(plan, shared, date, at);
    }
    None
}

/// The line of the message that a stream shows at a date behind so many others.
fn tell_stream(
    plan: &Plan,
    shared: &Shared,
    date: u64,
    stream: usize,
    shown: u32,
    line: &mut Line,
) -> bool
    requires plan { IsPlan plan.now }
    requires inputs { AreInputs plan.now.unit shared.now.inputs.lists }
    requires queued { length shared.now.queues.items ≡ length plan.now.unit.streams }
    requires within { stream < length plan.now.unit.streams }
    ensures told { (opening : Opening) (stalls : ℕ → List Stall) (turns : ℕ → List (Option Turn))
        → StandsBehind plan.now opening stalls turns date shared.now
        → IsShownBy (opened_of plan.now opening shared.now.inputs.lists stalls) date stream shown result line.old line.new }
    ensures room { IsTrue result → shown + 1 < 2 ^ 32 }
    ensures kept { IsFalse result → line.new ≡ line.old }
{
    fitting();
    openings();
    queues();
    tell_message(
        &shared.queues[stream],
        plan.unit.streams.as_slice()[stream].name.bytes(),
        date,
        shown,
        line,
    )
}

/// The first message that is told of a date from a stream's place on, behind so many of that stream, and how many were shown with it.
fn tell_shown(
    plan: &Plan,
    shared: &Shared,
    date: u64,
    place: usize,
    shown: u32,
    line: &mut Line,
) -> Option<Mark>
    requires plan { IsPlan plan.now }
    requires inputs { AreInputs plan.now.unit shared.now.inputs.lists }
    requires queued { length shared.now.queues.items ≡ length plan.now.unit.streams }
    requires behind { length plan.now.unit.agents + length plan.now.unit.variables ≤ place }
    requires within { place ≤ length plan.now.unit.agents + length plan.now.unit.variables + length plan.now.unit.streams }
    ensures told { (opening : Opening) (stalls : ℕ → List Stall) (turns : ℕ → List (Option Turn))
        → StandsBehind plan.now opening stalls turns date shared.now
        → IsNextTold (opened_of plan.now opening shared.now.inputs.lists stalls) date
        (length plan.now.unit.agents + length plan.now.unit.variables + length plan.now.unit.streams) place shown result line.old line.new }
{
    let places = plan.unit.agents.len() + plan.unit.variables.len();
    let end = places + plan.unit.streams.len();
    let mut next = place;
    let mut behind = shown;
    'streams: while next < end {
        if tell_stream(plan, shared, date, next - places, behind, line) {
            return Some(Mark {
                place: next,
                shown: behind + 1,
            });
        }
        next += 1;
        behind = 0;
    }
    None
}

/// The first line that is told of a date from a place on, behind so many messages of the stream there, and where the lines go on.
fn tell_from(
    plan: &Plan,
    shared: &Shared,
    date: u64,
    place: usize,
    shown: u32,
    line: &mut Line,
) -> Option<Mark>
    requires plan { IsPlan plan.now }
    requires inputs { AreInputs plan.now.unit shared.now.inputs.lists }
    requires seated { length shared.now.seats.items ≡ length plan.now.unit.agents }
    requires movers { NamesAll (falls_in (date + 1) shared.now.seats.items) (length plan.now.unit.agents) 0 shared.now.movers.moved.agents }
    requires valued { length shared.now.committed.items ≡ length plan.now.unit.variables }
    requires calendar { CalendarStands plan.now.unit.clocks (date + 1) shared.now.calendar }
    requires queued { length shared.now.queues.items ≡ length plan.now.unit.streams }
    requires early { date ≤ 2 ^ 40 }
    requires within { place ≤ length plan.now.unit.agents + length plan.now.unit.variables + length plan.now.unit.streams }
    requires unshown { place < length plan.now.unit.agents + length plan.now.unit.variables → shown ≡ 0 }
    ensures told { (opening : Opening) (stalls : ℕ → List Stall) (turns : ℕ → List (Option Turn))
        → StandsBehind plan.now opening stalls turns date shared.now
        → IsNextTold (opened_of plan.now opening shared.now.inputs.lists stalls) date
        (length plan.now.unit.agents + length plan.now.unit.variables + length plan.now.unit.streams) place shown result line.old line.new }
{
    let places = plan.unit.agents.len() + plan.unit.variables.len();
    if place >= places {
        return tell_shown(plan, shared, date, place, shown, line);
    }
    match tell_next(plan, shared, date, place, line) {
        Some(mark) => Some(mark),
        None => tell_shown(plan, shared, date, places, 0, line),
    }
}

/// The last date of a plan.
fn last_date(plan: &Plan) -> u32
    ensures { result ≡ plan.now.until }
{
    plan.until
}

impl Engine {
    /// The line of the date done last that comes next, as long as there is one; false, with nothing changed, once there is none. It
    /// takes no memory.
    pub(crate) fn next_line(&mut self, line: &mut Line) -> bool
        ensures some { IsTrue result → (slice_get (lines_on_date self.old) self.old.given ≡ Some line.new)
            × (self.new ≡ record self.old { given = self.old.given + 1 }) }
        ensures none { IsFalse result → (self.old.given ≡ length (lines_on_date self.old)) × (self.new ≡ self.old) × (line.new ≡ line.old) }
    {
        fitting();
        openings();
        regular();
        queues();
        queue_sizes();
        one_of_them();
        let Some(date) = self.shared.date else {
            return false;
        };
        let end = self.plan.unit.agents.len()
            + self.plan.unit.variables.len()
            + self.plan.unit.streams.len();
        if self.place == end {
            return false;
        }
        // It is a date of the plan, so it is early enough for the clocks.
        prove!(date <= u64::from(last_date(&self.plan)));
        match tell_from(&self.plan, &self.shared, date, self.place, self.shown, line) {
            Some(mark) => {
                self.place = mark.place;
                self.shown = mark.shown;
                self.given += 1;
                true
            }
            None => {
                self.place = end;
                self.shown = 0;
                false
            }
        }
    }
}
