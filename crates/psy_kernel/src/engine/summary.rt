//! The lines of the summary.
ghost use Rattle.std.specs.Prelude.{◌+◌, ◌<◌, ◌^◌, ◌≡◌, ◌≤◌, length, slice_get, Some, IsTrue, IsFalse};
ghost use Rattle.psy_dates.specs.Plans.{IsPlan};
ghost use Rattle.psy_kernel.specs.Engines.{summary_on};
ghost use Rattle.psy_kernel.specs.Telling.{figured_lines};

use super::{Engine, Runner};
use psy_dates::Plan;
use psy_history::laws::{fitting, on_time, one_of_them, openings, reaches, regular};
use psy_log::{Line, Note};

/// The line of the summary at a place, by what the agents have, by how far back rings were reached for, and by how many messages
/// streams held.
fn tell_figure(
    plan: &Plan,
    runners: &[Runner],
    reaches: &[Option<u32>],
    helds: &[u32],
    place: usize,
    line: &mut Line,
) -> bool
    requires plan { IsPlan plan.now }
    requires run { length runners.now ≡ length plan.now.unit.agents }
    requires reaching { length reaches.now ≡ length plan.now.unit.variables }
    requires holding { length helds.now ≡ length plan.now.unit.streams }
    ensures some { IsTrue result → slice_get (figured_lines plan.now runners.now reaches.now helds.now) place ≡ Some line.new }
    ensures none { IsFalse result → (length (figured_lines plan.now runners.now reaches.now helds.now) ≤ place) × (line.new ≡ line.old) }
{
    if place == 0 {
        line.set(&Note::End {
            until: u64::from(plan.until),
        });
        return true;
    }
    let agents = plan.unit.agents.as_slice();
    let agent = place - 1;
    if agent < agents.len() {
        let figure = runners[agent].figure;
        line.set(&Note::AgentEnd {
            agent: agents[agent].name.bytes(),
            count: figure.count,
            slack: figure.slack,
        });
        return true;
    }
    let variables = plan.unit.variables.as_slice();
    let variable = agent - agents.len();
    if variable < variables.len() {
        line.set(&Note::VariableEnd {
            variable: variables[variable].name.bytes(),
            size: plan.sizes.rings.as_slice()[variable],
            reach: reaches[variable],
        });
        return true;
    }
    let streams = plan.unit.streams.as_slice();
    let stream = variable - variables.len();
    if stream < streams.len() {
        line.set(&Note::StreamEnd {
            stream: streams[stream].name.bytes(),
            size: plan.sizes.queues.as_slice()[stream],
            held: helds[stream],
        });
        return true;
    }
    false
}

impl Engine {
    /// The line of the summary at this place, the first one standing at 0; false exactly where there is none. It takes no memory.
    pub(crate) fn summary_line(&self, place: u32, line: &mut Line) -> bool
        requires over { self.now.dates ≡ self.now.plan.until + 1 }
        ensures some { IsTrue result → slice_get (summary_on self.now) place ≡ Some line.new }
        ensures none { IsFalse result → (length (summary_on self.now) ≤ place) × (line.new ≡ line.old) }
        // The place behind the last line is a number of 32 bits too.
        ensures few { length (summary_on self.now) < 2 ^ 32 }
    {
        fitting();
        openings();
        regular();
        on_time();
        one_of_them();
        reaches();
        tell_figure(
            &self.plan,
            &self.runners,
            &self.reaches,
            &self.helds,
            place as usize,
            line,
        )
    }
}
