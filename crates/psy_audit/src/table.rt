//! What the judge of a trace has at hand: the plan, the script, the lines, and what they tell of each agent and each variable.
ghost use Rattle.std.specs.Prelude.{◌≡◌, ◌<◌, ◌==◌, filter, length};
ghost use Rattle.psy_audit.specs.Tables.{IsTable};
ghost use Rattle.psy_audit.specs.Traces.{acts_of, publications_of, segments};
ghost use Rattle.psy_audit.specs.declared.said.Segment.{Segment as Stretch};

use crate::rows::AgentRow;
use crate::said::{Act, Publication, Said, Segment};
use psy_base::Items;
use psy_dates::Plan;
use psy_history::Script;

/// A plan, a script and the lines of a trace; the agents in the order of their declaration; by agent what the trace tells of it; and by variable
/// its publications.
#[derive(Clone, Copy)]
pub struct Table<'a> {
    pub plan: &'a Plan,
    pub script: &'a Script,
    pub lines: &'a [Option<Said>],
    pub declared: &'a [u32],
    pub rows: &'a Items<AgentRow>,
    pub publications: &'a Items<Items<Publication>>,
}

/// The actions of an agent.
pub fn acts_of<'a>(table: &Table<'a>, agent: u32) -> &'a [Act]
    requires table { IsTable table.now }
    requires agent { agent < length table.now.plan.now.unit.agents }
    ensures { result.now ≡ acts_of agent table.now.lines.now }
{
    match table.rows.get(agent as usize) {
        Some(row) => row.acts.as_slice(),
        None => &[],
    }
}

/// Some of the stretches of an agent, of which those of the action of a number are those of all.
pub fn segments_near<'a>(table: &Table<'a>, agent: u32, number: u64) -> &'a [Segment]
    requires table { IsTable table.now }
    requires agent { agent < length table.now.plan.now.unit.agents }
    ensures { filter (λ (s : Stretch). s.number == number) result.now
        ≡ filter (λ (s : Stretch). s.number == number) (filter (λ (s : Stretch). s.agent == agent) (segments table.now.lines.now)) }
{
    match table.rows.get(agent as usize) {
        Some(row) => row.segments.near(number),
        None => &[],
    }
}

/// The publications of a variable.
pub fn publications_of<'a>(table: &Table<'a>, variable: u32) -> &'a [Publication]
    requires table { IsTable table.now }
    requires variable { variable < length table.now.plan.now.unit.variables }
    ensures { result.now ≡ publications_of variable table.now.lines.now }
{
    match table.publications.get(variable as usize) {
        Some(publications) => publications.as_slice(),
        None => &[],
    }
}
