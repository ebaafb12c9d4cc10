//! The cycles of an action: those that it tells of, within its budget and between its dates.
ghost use Rattle.std.specs.Prelude.{◌≡◌, ◌<◌, ◌≤◌, ◌-◌, ◌*◌, ◌||◌, ◌&&◌, not, nat_le, if◌then◌else◌, ℕ, length, map};
ghost use Rattle.std.specs.List.{list_all, list_any};
ghost use Rattle.psy_audit.specs.Courses.{are_cycles, cycles_in, has_cycle, is_filled, is_unfinished};
ghost use Rattle.psy_audit.specs.Judging.{untied};
ghost use Rattle.psy_audit.specs.declared.said.Segment.{Segment as Stretch};
ghost use Rattle.psy_base.specs.Extremes.{most_of};
ghost use Rattle.psy_meaning.specs.Units.{IsBare};

use crate::said::{Act, Ending, Segment};
use crate::timing::point_of;
use psy_dates::Plan;

/// An action has the cycles that it tells of in these stretches, no more than its budget, between its dates, and is finished where it was due.
pub fn are_cycles(plan: &Plan, its: &[Segment], act: &Act) -> bool
    requires bare { IsBare plan.now.unit }
    requires agent { act.now.agent < length plan.now.unit.agents }
    ensures { result ≡ are_cycles (untied plan.now) its.now act.now }
{
    act.work <= u64::from(point_of(plan, act.agent, act.point).budget)
        && (act.work == cycles_in(its)
            && (are_within(plan, its, act)
                && !(is_unfinished(act.ending) && act.due <= u64::from(plan.until))))
}

/// It wasn't finished.
pub fn is_unfinished(ending: Ending) -> bool
    ensures { result ≡ is_unfinished ending }
{
    match ending {
        Ending::Unfinished => true,
        _ => false,
    }
}

// All of the stretches lie between the start and the deadline of an action.
fn are_within(plan: &Plan, its: &[Segment], act: &Act) -> bool
    ensures { result ≡ list_all (λ (s : Stretch). (not (is_filled s)
        || nat_le (act.now.start * plan.now.unit.quantum) s.first && nat_le s.past (act.now.due * plan.now.unit.quantum))) its.now }
{
    let quantum = plan.unit.quantum;
    let from = u128::from(act.start) * u128::from(quantum);
    let to = u128::from(act.due) * u128::from(quantum);
    its.iter().all(|segment| is_between(from, to, segment))
}

fn is_between(from: u128, to: u128, segment: &Segment) -> bool
    ensures { result ≡ (not (is_filled segment.now) || nat_le from segment.now.first && nat_le segment.now.past to) }
{
    !is_filled(segment) || (from <= u128::from(segment.first) && u128::from(segment.past) <= to)
}

/// The stretch has a cycle.
pub fn is_filled(segment: &Segment) -> bool
    ensures { result ≡ is_filled segment.now }
{
    segment.first < segment.past
}

/// The cycle is one of the stretch.
fn has_cycle(cycle: u64, segment: &Segment) -> bool
    ensures { result ≡ has_cycle cycle segment.now }
{
    segment.first <= cycle && cycle < segment.past
}

/// The cycle is one of some stretches.
pub fn have_cycle(cycle: u64, its: &[Segment]) -> bool
    ensures { result ≡ list_any (has_cycle cycle) its.now }
{
    its.iter().any(|segment| has_cycle(cycle, segment))
}

// The greatest cycle behind a stretch.
fn most_past(its: &[Segment]) -> u64
    ensures { result ≡ most_of (map (λ (s : Stretch). s.past) its.now) }
{
    let mut most = 0u64;
    'its: for segment in its {
        most = most.max(segment.past);
    }
    most
}

// The number of cycles of some stretches; one that several have is counted once.
fn cycles_in(its: &[Segment]) -> u64
    ensures { result ≡ cycles_in its.now }
{
    let most = most_past(its);
    let mut cycle = 0u64;
    let mut count = 0u64;
    'changes: while cycle < most {
        let next = next_edge(its, cycle, most);
        count += had_between(its, cycle, next);
        cycle = next;
    }
    count
}

// The cycles from one on that some stretches have, before another up to which they have all or none.
fn had_between(its: &[Segment], cycle: u64, next: u64) -> u64
    requires { cycle < next }
    ensures { result ≡ (if list_any (has_cycle cycle) its.now then next - cycle else 0) }
{
    if have_cycle(cycle, its) {
        next - cycle
    } else {
        0
    }
}

// The next cycle behind this one at which a stretch begins or is over, or the last one where there is none before it.
fn next_edge(its: &[Segment], cycle: u64, to: u64) -> u64
    requires { cycle < to }
    ensures behind { cycle < result }
    ensures within { result ≤ to }
    ensures same { (c : ℕ) → cycle ≤ c → c < result → list_any (has_cycle c) its.now ≡ list_any (has_cycle cycle) its.now }
{
    let mut next = to;
    'its: for segment in its {
        let begun = earlier(next, cycle, segment.first);
        next = earlier(begun, cycle, segment.past);
    }
    next
}

/// The earlier of a cycle and one that lies behind another.
pub fn earlier(next: u64, cycle: u64, moment: u64) -> u64
    requires { cycle < next }
    ensures behind { cycle < result }
    ensures within { result ≤ next }
    ensures passed { cycle < moment → result ≤ moment }
{
    if cycle < moment && moment < next {
        moment
    } else {
        next
    }
}
