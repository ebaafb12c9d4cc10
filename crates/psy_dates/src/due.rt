//! When the actions of a plan's agents begin, are due and end.

ghost use Rattle.std.specs.Prelude.{◌≡◌, ◌+◌, ◌^◌, ◌<◌, ◌≤◌, length, map, get_or};
ghost use Rattle.psy_base.specs.declared.limits.TheConstants.{ADVANCE};
ghost use Rattle.psy_clock.specs.Dates.{IsClock, after_date, from_date};
ghost use Rattle.psy_meaning.specs.Timing.{point_at, first_date, end_date, least, deadline};
ghost use Rattle.psy_meaning.specs.Units.{IsBare};
ghost use Rattle.psy_dates.specs.Calendars.{CalendarStands};
ghost use Rattle.psy_dates.specs.Moves.{timing_in};
ghost use Rattle.psy_tree.specs.Parts.{no_clock};

use crate::calendar::Calendar;
use crate::plan::Plan;
use psy_clock::Clock;
use psy_clock::laws::{dates, distances};
use psy_tree::Point;

/// A clock of a plan's program.
pub fn clock_of(plan: &Plan, clock: u32) -> Clock
    requires { IsBare plan.now.unit }
    ensures value { result ≡ get_or plan.now.unit.clocks clock no_clock }
    ensures lawful { IsClock result }
{
    match plan.unit.clocks.get(clock as usize) {
        Some(clock) => *clock,
        None => Clock::base(),
    }
}

/// A point of an agent of a plan.
fn point_of(plan: &Plan, agent: usize, point: u32) -> Point
    requires bare { IsBare plan.now.unit }
    requires agent { agent < length plan.now.unit.agents }
    ensures value { result ≡ point_at (timing_in plan.now agent) point }
    ensures few { result.count ≤ ADVANCE }
{
    match plan.unit.agents.as_slice()[agent]
        .points
        .get(point as usize)
    {
        Some(point) => *point,
        None => Point {
            count: 1,
            clock: 0,
            budget: 0,
        },
    }
}

/// The date of an agent's first action.
pub fn first_of(plan: &Plan, agent: usize) -> u64
    requires bare { IsBare plan.now.unit }
    requires agent { agent < length plan.now.unit.agents }
    ensures { result ≡ first_date (timing_in plan.now agent) }
{
    u64::from(clock_of(plan, point_of(plan, agent, 0).clock).first)
}

/// The k-th date of a clock behind a date, by the next one.
#[tactic(auto, using(crate::proofs::Calendars::after_next))]
fn later(clock: Clock, start: u64, next: u64, k: u32) -> u64
    requires clock { IsClock clock }
    requires some { 1 ≤ k }
    requires few { k ≤ ADVANCE }
    requires early { start ≤ 2 ^ 40 }
    requires next { next ≡ from_date clock (start + 1) 0 }
    ensures { result ≡ after_date clock start k }
{
    dates();
    distances();
    next + u64::from(k - 1) * u64::from(clock.period)
}

/// The k-th date of a clock behind a date: without a division where the calendar has the next one.
fn date_behind(plan: &Plan, calendar: &Calendar, clock: u32, start: u64, k: u32) -> u64
    requires bare { IsBare plan.now.unit }
    requires calendar { CalendarStands plan.now.unit.clocks (start + 1) calendar.now }
    requires some { 1 ≤ k }
    requires few { k ≤ ADVANCE }
    requires early { start ≤ 2 ^ 40 }
    ensures { result ≡ after_date (get_or plan.now.unit.clocks clock no_clock) start k }
{
    let known = clock_of(plan, clock);
    match calendar.find(clock) {
        Some(next) => later(known, start, next, k),
        None => known.after(start, k),
    }
}

/// The date at which an action of an agent ends that started at a date and reaches a point.
fn end_of(plan: &Plan, calendar: &Calendar, agent: usize, start: u64, to: u32) -> u64
    requires bare { IsBare plan.now.unit }
    requires agent { agent < length plan.now.unit.agents }
    requires calendar { CalendarStands plan.now.unit.clocks (start + 1) calendar.now }
    requires early { start ≤ 2 ^ 40 }
    ensures { result ≡ end_date (timing_in plan.now agent) start to }
{
    let point = point_of(plan, agent, to);
    // only the head has the count 0, which stands for 1, and no point is followed by the head
    date_behind(plan, calendar, point.clock, start, point.count.max(1))
}

/// The earliest date at which an action of an agent ends that started at a date and reaches one of some points.
fn earliest(plan: &Plan, calendar: &Calendar, agent: usize, start: u64, points: &[u32]) -> u64
    requires bare { IsBare plan.now.unit }
    requires agent { agent < length plan.now.unit.agents }
    requires calendar { CalendarStands plan.now.unit.clocks (start + 1) calendar.now }
    requires early { start ≤ 2 ^ 40 }
    ensures { result ≡ least (map (end_date (timing_in plan.now agent) start) points.now) }
{
    if points.is_empty() {
        return 0;
    }
    let mut least = end_of(plan, calendar, agent, start, points[0]);
    'points: for to in points {
        least = least.min(end_of(plan, calendar, agent, start, *to));
    }
    least
}

/// The deadline of an action of an agent that starts at a date, from a point.
pub fn deadline_of(plan: &Plan, calendar: &Calendar, agent: usize, point: u32, start: u64) -> u64
    requires bare { IsBare plan.now.unit }
    requires agent { agent < length plan.now.unit.agents }
    requires nexts { length plan.now.nexts ≡ length plan.now.unit.agents }
    requires calendar { CalendarStands plan.now.unit.clocks (start + 1) calendar.now }
    requires early { start ≤ 2 ^ 40 }
    ensures { result ≡ deadline (timing_in plan.now agent) point start }
{
    match plan.nexts.as_slice()[agent].get(point as usize) {
        Some(points) => earliest(plan, calendar, agent, start, points.as_slice()),
        None => 0,
    }
}
