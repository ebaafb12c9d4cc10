//! What a date does to the seats of agents.

ghost use Rattle.std.specs.Prelude.{◌≡◌, ℕ, ◌+◌, ◌^◌, ◌<◌, ◌≤◌, length, Some, slice_get};
ghost use Rattle.std.specs.List.{All};
ghost use Rattle.psy_meaning.specs.Units.{IsBare};
ghost use Rattle.psy_dates.specs.declared.seat.Seat.{Seat as Place};
ghost use Rattle.psy_dates.specs.Calendars.{CalendarStands};
ghost use Rattle.psy_dates.specs.Movers.{NamesAll, moves_in};
ghost use Rattle.psy_dates.specs.Moves.{IsNumbered, begun_at, seat_then, timing_in};

use crate::calendar::Calendar;
use crate::due::{deadline_of, first_of};
use crate::plan::Plan;
use crate::seat::{Phase, Seat};

/// The seat of an agent whose action of this number starts at a date, from a point.
pub fn begun(
    plan: &Plan,
    calendar: &Calendar,
    agent: usize,
    date: u64,
    number: u64,
    point: u32,
) -> Seat
    requires bare { IsBare plan.now.unit }
    requires agent { agent < length plan.now.unit.agents }
    requires nexts { length plan.now.nexts ≡ length plan.now.unit.agents }
    requires calendar { CalendarStands plan.now.unit.clocks (date + 1) calendar.now }
    requires early { date ≤ 2 ^ 40 }
    ensures { result ≡ begun_at (timing_in plan.now agent) date number point }
{
    Seat {
        phase: Phase::Acting,
        number,
        point,
        start: date,
        deadline: deadline_of(plan, calendar, agent, point, date),
        end: 0,
        reached: 0,
        trap: None,
    }
}

/// What becomes of an agent's seat at a date. A stopped agent falls silent at its deadline; one whose deadline was before is silent
/// already, so `<=` is as good as `==`.
pub fn moved(plan: &Plan, calendar: &Calendar, agent: usize, date: u64, seat: Seat) -> Seat
    requires bare { IsBare plan.now.unit }
    requires agent { agent < length plan.now.unit.agents }
    requires nexts { length plan.now.nexts ≡ length plan.now.unit.agents }
    requires calendar { CalendarStands plan.now.unit.clocks (date + 1) calendar.now }
    requires early { date ≤ 2 ^ 40 }
    requires numbered { IsNumbered seat }
    ensures { result ≡ seat_then (timing_in plan.now agent) date seat }
{
    match seat.phase {
        Phase::Waiting => {
            if first_of(plan, agent) == date {
                begun(plan, calendar, agent, date, 0, 0)
            } else {
                seat
            }
        }
        Phase::Ended => {
            if seat.end == date {
                begun(plan, calendar, agent, date, seat.number + 1, seat.reached)
            } else {
                seat
            }
        }
        Phase::Stopped => {
            if seat.deadline <= date {
                Seat {
                    phase: Phase::Silent,
                    ..seat
                }
            } else {
                seat
            }
        }
        Phase::Acting | Phase::Silent => seat,
    }
}

/// What becomes of all seats at a date, by the agents that move there.
pub fn move_all(plan: &Plan, calendar: &Calendar, date: u64, movers: &[u32], seats: &mut [Seat])
    requires bare { IsBare plan.now.unit }
    requires seated { length seats.old ≡ length plan.now.unit.agents }
    requires nexts { length plan.now.nexts ≡ length plan.now.unit.agents }
    requires calendar { CalendarStands plan.now.unit.clocks (date + 1) calendar.now }
    requires early { date ≤ 2 ^ 40 }
    requires numbered { All IsNumbered seats.old }
    requires known { All (λ agent. agent < length seats.old) movers.now }
    requires movers { NamesAll (moves_in plan.now date seats.old) (length seats.old) 0 movers.now }
    ensures { (agent : ℕ) (seat : Place) → slice_get seats.old agent ≡ Some seat
        → slice_get seats.new agent ≡ Some (seat_then (timing_in plan.now agent) date seat) }
{
    'movers: for place in 0..movers.len() {
        let agent = movers[place] as usize;
        seats[agent] = moved(plan, calendar, agent, date, seats[agent]);
    }
}
