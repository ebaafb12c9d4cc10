//! When the actions of an agent of a plan begin, are due and end, for whatever numbers a trace tells.
ghost use Rattle.std.specs.Prelude.{◌≡◌, ◌+◌, ◌<◌, ◌≤◌, [], length, map, get_or};
ghost use Rattle.psy_clock.specs.Dates.{IsClock, count};
ghost use Rattle.psy_meaning.specs.RingSizes.{agent_timing};
ghost use Rattle.psy_meaning.specs.Timing.{deadline, end_date, first_date, following, least, point_at};
ghost use Rattle.psy_meaning.specs.Units.{IsBare};
ghost use Rattle.psy_tree.specs.Parts.{no_clock, variable_at};

use psy_base::Items;
use psy_clock::Clock;
use psy_clock::laws::dates;
use psy_dates::Plan;
use psy_tree::Point;

/// How many dates of a clock stand at or below `t`.
pub fn count_to(clock: Clock, t: u64) -> u128
    requires { IsClock clock }
    ensures value { result ≡ count clock t }
    ensures few { result ≤ t + 1 }
{
    dates();
    let first = u64::from(clock.first);
    if t < first {
        return 0;
    }
    u128::from((t - first) / u64::from(clock.period)) + 1
}

/// A clock of a plan's program.
pub fn clock_of(plan: &Plan, clock: u32) -> Clock
    requires { IsBare plan.now.unit }
    ensures value { result ≡ get_or plan.now.unit.clocks clock no_clock }
    ensures lawful { IsClock result }
{
    match plan.unit.clocks.get(clock as usize) {
        Some(clock) => *clock,
        None => Clock::base(),
    }
}

/// The clock at whose dates a variable publishes.
pub fn publishing(plan: &Plan, variable: u32) -> Clock
    requires bare { IsBare plan.now.unit }
    requires variable { variable < length plan.now.unit.variables }
    ensures value { result ≡ get_or plan.now.unit.clocks (variable_at plan.now.unit variable).clock no_clock }
    ensures lawful { IsClock result }
{
    clock_of(
        plan,
        plan.unit.variables.as_slice()[variable as usize].clock,
    )
}

/// A point of an agent.
pub fn point_of(plan: &Plan, agent: u32, point: u64) -> Point
    requires { agent < length plan.now.unit.agents }
    ensures { result ≡ point_at (agent_timing plan.now.unit plan.now.nexts agent) point }
{
    match plan.unit.agents.as_slice()[agent as usize]
        .points
        .get(point as usize)
    {
        Some(point) => *point,
        None => Point {
            count: 1,
            clock: 0,
            budget: 0,
        },
    }
}

/// The points that may follow a point of an agent.
pub fn following(plan: &Plan, agent: u32, point: u64) -> &[u32]
    ensures { result.now ≡ following (agent_timing plan.now.unit plan.now.nexts agent) point }
{
    match plan.nexts.get(agent as usize) {
        Some(lists) => points_behind(lists.as_slice(), point),
        None => &[],
    }
}

fn points_behind(lists: &[Items<u32>], point: u64) -> &[u32]
    ensures { result.now ≡ get_or lists.now point [] }
{
    match lists.get(point as usize) {
        Some(points) => points.as_slice(),
        None => &[],
    }
}

/// The date of the first action of an agent.
pub fn first_of(plan: &Plan, agent: u32) -> u64
    requires bare { IsBare plan.now.unit }
    requires agent { agent < length plan.now.unit.agents }
    ensures { result ≡ first_date (agent_timing plan.now.unit plan.now.nexts agent) }
{
    u64::from(clock_of(plan, point_of(plan, agent, 0).clock).first)
}

/// The date at which an action of an agent ends that started at a date and reaches a point.
pub fn end_of(plan: &Plan, agent: u32, start: u64, to: u32) -> u128
    requires bare { IsBare plan.now.unit }
    requires agent { agent < length plan.now.unit.agents }
    ensures { result ≡ end_date (agent_timing plan.now.unit plan.now.nexts agent) start to }
{
    let point = point_of(plan, agent, u64::from(to));
    let clock = clock_of(plan, point.clock);
    let number = count_to(clock, start) + u128::from(point.count.saturating_sub(1));
    u128::from(clock.first) + number * u128::from(clock.period)
}

/// The deadline of an action of an agent that starts at a date, from a point.
pub fn deadline_of(plan: &Plan, agent: u32, point: u64, start: u64) -> u128
    requires bare { IsBare plan.now.unit }
    requires agent { agent < length plan.now.unit.agents }
    ensures { result ≡ deadline (agent_timing plan.now.unit plan.now.nexts agent) point start }
{
    earliest(plan, agent, start, following(plan, agent, point))
}

// The earliest date at which an action of an agent ends that started at a date and reaches one of some points.
fn earliest(plan: &Plan, agent: u32, start: u64, points: &[u32]) -> u128
    requires bare { IsBare plan.now.unit }
    requires agent { agent < length plan.now.unit.agents }
    ensures { result ≡ least (map (end_date (agent_timing plan.now.unit plan.now.nexts agent) start) points.now) }
{
    if points.is_empty() {
        return 0;
    }
    let mut least = end_of(plan, agent, start, points[0]);
    'points: for to in points {
        least = least.min(end_of(plan, agent, start, *to));
    }
    least
}
