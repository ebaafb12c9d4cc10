//! What a trace tells of an agent.
ghost use Rattle.std.specs.Prelude.{◌≡◌, IfOk, map};
ghost use Rattle.std.specs.List.{range_with_len};
ghost use Rattle.psy_audit.specs.Judging.{untied};
ghost use Rattle.psy_audit.specs.Rows.{row_in};
ghost use Rattle.psy_audit.specs.Traces.{Lines, acts as acts_told, segments as segments_told};

use crate::apart::Waits;
use crate::said::{Act, Segment};
use crate::stretches::Stretches;
use crate::tables::rows::{acts_of, segments_of_agent};
use crate::waits::waits_of;
use psy_base::{Items, Memory};
use psy_dates::Plan;
use std::alloc::Global;

/// The actions of an agent and its stretches of cycles, in the order of the trace; and its actions as they wait.
#[derive(Drop)]
pub struct AgentRow {
    pub acts: Items<Act>,
    pub segments: Stretches,
    pub waits: Waits,
}

/// By agent, what a trace tells of it, where these are the trace's actions and stretches.
pub fn rows_of(
    alloc: Global,
    plan: &Plan,
    acts: &[Act],
    segments: &[Segment],
    agents: u32,
) -> Result<Items<AgentRow>, Memory>
    ensures { IfOk result (λ rows. (all : Lines) → acts.now ≡ acts_told all → segments.now ≡ segments_told all
        → rows ≡ map (row_in (untied plan.now) all) (range_with_len 0 agents)) }
{
    let mut rows = Items::new(alloc);
    'agents: for agent in 0..agents {
        rows.push(row_of(alloc, plan, acts, segments, agent)?)?;
    }
    Ok(rows)
}

fn row_of(
    alloc: Global,
    plan: &Plan,
    acts: &[Act],
    segments: &[Segment],
    agent: u32,
) -> Result<AgentRow, Memory>
    ensures { IfOk result (λ row. (all : Lines) → acts.now ≡ acts_told all → segments.now ≡ segments_told all
        → row ≡ row_in (untied plan.now) all agent) }
{
    let acts = acts_of(alloc, acts, agent)?;
    let segments = segments_of_agent(alloc, segments, agent)?;
    let waits = waits_of(alloc, plan, acts.as_slice(), &segments)?;
    Ok(AgentRow {
        acts,
        segments,
        waits,
    })
}
