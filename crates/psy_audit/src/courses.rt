//! The actions of an agent: each goes on from the one before, as the program lets it.
ghost use Rattle.std.specs.Prelude.{◌≡◌, ◌<◌, length};
ghost use Rattle.psy_audit.specs.Courses.{comes_next, ends_at, goes_on, is_continued, is_course, is_first};
ghost use Rattle.psy_audit.specs.declared.said.Act.{Act as Action};
ghost use Rattle.std.specs.Prelude.{◌==◌, ◌&&◌, ℕ};
ghost use Rattle.std.specs.List.{list_any};
ghost use Rattle.psy_meaning.specs.RingSizes.{agent_timing};
ghost use Rattle.psy_meaning.specs.Timing.{end_date, following};
ghost use Rattle.psy_meaning.specs.Units.{IsBare};

use crate::said::{Act, Ending};
use crate::timing::{deadline_of, end_of, first_of, following};
use psy_dates::Plan;

/// The action is one that its agent may do behind its last one, where `its` are the actions of that agent.
pub fn is_course(plan: &Plan, last: Option<Act>, its: &[Act], act: &Act) -> bool
    requires bare { IsBare plan.now.unit }
    requires agent { act.now.agent < length plan.now.unit.agents }
    ensures { result ≡ is_course (agent_timing plan.now.unit plan.now.nexts act.now.agent) plan.now.until last its.now act.now }
{
    comes_next(plan, last, act)
        && (act.start < u64::from(plan.until)
            && (u128::from(act.due) == deadline_of(plan, act.agent, act.point, act.start)
                && is_continued(plan, its, act)))
}

// It is the first, or goes on from the last one.
fn comes_next(plan: &Plan, last: Option<Act>, act: &Act) -> bool
    requires bare { IsBare plan.now.unit }
    requires agent { act.now.agent < length plan.now.unit.agents }
    ensures { result ≡ comes_next (agent_timing plan.now.unit plan.now.nexts act.now.agent) last act.now }
{
    match last {
        None => is_first(plan, act),
        Some(before) => goes_on(plan, act.agent, &before, act),
    }
}

// The first action of its agent.
fn is_first(plan: &Plan, act: &Act) -> bool
    requires bare { IsBare plan.now.unit }
    requires agent { act.now.agent < length plan.now.unit.agents }
    ensures { result ≡ is_first (agent_timing plan.now.unit plan.now.nexts act.now.agent) act.now }
{
    act.number == 0 && (act.point == 0 && act.start == first_of(plan, act.agent))
}

// The action of an agent goes on from one of the same agent.
fn goes_on(plan: &Plan, agent: u32, before: &Act, act: &Act) -> bool
    requires bare { IsBare plan.now.unit }
    requires agent { agent < length plan.now.unit.agents }
    ensures { result ≡ goes_on (agent_timing plan.now.unit plan.now.nexts agent) before.now act.now }
{
    u128::from(act.number) == u128::from(before.number) + 1
        && (ends_at(act.start, before.ending) && goes_to(plan, agent, before, act))
}

// An action ended at this date.
fn ends_at(date: u64, ending: Ending) -> bool
    ensures { result ≡ ends_at date ending }
{
    match ending {
        Ending::At(end) => end == date,
        _ => false,
    }
}

// One of the points that follow the one where an action began is where the next one begins, with its date.
fn goes_to(plan: &Plan, agent: u32, before: &Act, act: &Act) -> bool
    requires bare { IsBare plan.now.unit }
    requires agent { agent < length plan.now.unit.agents }
    ensures { result ≡ list_any (λ (to : ℕ). to == act.now.point
        && end_date (agent_timing plan.now.unit plan.now.nexts agent) before.now.start to == act.now.start)
        (following (agent_timing plan.now.unit plan.now.nexts agent) before.now.point) }
{
    following(plan, agent, before.point)
        .iter()
        .any(|to| leads_to(plan, agent, before.start, *to, act))
}

fn leads_to(plan: &Plan, agent: u32, start: u64, to: u32, act: &Act) -> bool
    requires bare { IsBare plan.now.unit }
    requires agent { agent < length plan.now.unit.agents }
    ensures { result ≡ (to == act.now.point && end_date (agent_timing plan.now.unit plan.now.nexts agent) start to == act.now.start) }
{
    u64::from(to) == act.point && end_of(plan, agent, start, to) == u128::from(act.start)
}

// An action that ended at a date could end there, and where that is before the last date, some action goes on from it.
fn is_continued(plan: &Plan, its: &[Act], act: &Act) -> bool
    requires bare { IsBare plan.now.unit }
    requires agent { act.now.agent < length plan.now.unit.agents }
    ensures { result ≡ is_continued (agent_timing plan.now.unit plan.now.nexts act.now.agent) plan.now.until its.now act.now act.now.ending }
{
    match act.ending {
        Ending::At(end) => {
            may_end_at(plan, act, end)
                && (u64::from(plan.until) <= end || is_followed(plan, its, act))
        }
        _ => true,
    }
}

// An action could end at a date.
fn may_end_at(plan: &Plan, act: &Act, end: u64) -> bool
    requires bare { IsBare plan.now.unit }
    requires agent { act.now.agent < length plan.now.unit.agents }
    ensures { result ≡ list_any (λ (to : ℕ). end_date (agent_timing plan.now.unit plan.now.nexts act.now.agent) act.now.start to == end)
        (following (agent_timing plan.now.unit plan.now.nexts act.now.agent) act.now.point) }
{
    following(plan, act.agent, act.point).iter().any(|to| end_of(plan, act.agent, act.start, *to)
        == u128::from(end))
}

// One of some actions goes on from an action.
fn is_followed(plan: &Plan, its: &[Act], act: &Act) -> bool
    requires bare { IsBare plan.now.unit }
    requires agent { act.now.agent < length plan.now.unit.agents }
    ensures { result ≡ list_any (goes_on (agent_timing plan.now.unit plan.now.nexts act.now.agent) act.now) its.now }
{
    its.iter().any(|next| goes_on(plan, act.agent, act, next))
}
