//! The actions of an agent as they wait for its processor.
ghost use Rattle.std.specs.Prelude.{◌≡◌, ◌<◌, ℕ, map, if◌then◌else◌, filter, ◌==◌, IfOk};
ghost use Rattle.psy_audit.specs.Courses.{is_filled};
ghost use Rattle.psy_audit.specs.Judging.{untied};
ghost use Rattle.psy_audit.specs.Waits.{end_in, is_waiting, past_in, wait_in};
ghost use Rattle.psy_audit.specs.declared.said.Act.{Act as Action};
ghost use Rattle.psy_audit.specs.declared.said.Segment.{Segment as Stretch};

use crate::apart::Waits;
use crate::cycles::{is_filled, is_unfinished};
use crate::said::{Act, Segment};
use crate::stretches::Stretches;
use crate::tables::rows::segments_of_number;
use psy_base::Memory;
use psy_dates::Plan;
use std::alloc::Global;

/// An action, and from which cycle on and before which one it may be pending.
#[derive(Clone, Copy, Debug, PartialEq, Eq)]
pub struct Wait {
    pub act: Act,
    /// The cycle at which it is released.
    pub from: u128,
    /// The cycle behind its last one, and 0 where it has none.
    pub past: u64,
}

/// Some actions of an agent as they wait, where these are the stretches of that agent.
pub fn waits_of(
    alloc: Global,
    plan: &Plan,
    acts: &[Act],
    segments: &Stretches,
) -> Result<Waits, Memory>
    ensures { IfOk result (λ waits. waits
        ≡ map (λ (a : Action). wait_in (untied plan.now) (filter (λ (s : Stretch). s.number == a.number) segments.now) a) acts.now) }
{
    let mut waits = Waits::new(alloc);
    'acts: for act in acts {
        let its = segments_of_number(alloc, segments.near(act.number), act.number)?;
        waits.push(wait_of(plan, its.as_slice(), act))?;
    }
    Ok(waits)
}

fn wait_of(plan: &Plan, its: &[Segment], act: &Act) -> Wait
    ensures { result ≡ wait_in (untied plan.now) its.now act.now }
{
    Wait {
        act: *act,
        from: u128::from(act.start) * u128::from(plan.unit.quantum),
        past: past_in(its),
    }
}

// The cycle behind the last one of some stretches.
fn past_in(its: &[Segment]) -> u64
    ensures { result ≡ past_in its.now }
{
    let mut past = 0u64;
    'its: for segment in its {
        past = past.max(end_in(segment));
    }
    past
}

// The cycle behind the last one of a stretch, and 0 where it has none.
fn end_in(segment: &Segment) -> u64
    ensures { result ≡ end_in segment.now }
{
    if is_filled(segment) { segment.past } else { 0 }
}

/// The action is pending at a cycle.
pub fn is_waiting(cycle: u64, wait: &Wait) -> bool
    ensures { result ≡ is_waiting cycle wait.now }
{
    wait.from <= u128::from(cycle) && (is_unfinished(wait.act.ending) || cycle < wait.past)
}
