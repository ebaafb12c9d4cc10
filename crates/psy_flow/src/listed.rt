//! The ways of a program's actions, as lists.

ghost use Rattle.std.specs.Prelude.{◌≡◌, ℕ, length, IfOk};
ghost use Rattle.psy_tree.specs.declared.unit.Unit.{Unit as Whole};
ghost use Rattle.psy_tree.specs.Parts.{agent_at};
ghost use Rattle.psy_meaning.specs.ListedWays.{AreByPoint, AreSends, AreWaysOf, points_of};
ghost use Rattle.psy_meaning.specs.Units.{IsOfText};
ghost use Rattle.psy_flow.specs.Agents.{IsOfSome, IsAgentOf};
ghost use Rattle.psy_flow.specs.Listed.{AreStatedPaths};

use crate::delays::delays;
use crate::looking::looks_by_point;
use crate::next::nexts_by_point;
use crate::sending::sends_by_point;
use psy_base::{Items, Memory, SendWay, Ways};
use psy_lists::push;
use psy_tree::{AgentDecl, Unit};
use std::alloc::Global;

/// The ways of an agent's actions by point, without what they send.
#[derive(Debug, Drop)]
pub struct AgentPaths {
    /// Where they end.
    pub nexts: Items<Items<u32>>,
    /// At what they look.
    pub looks: Items<Items<u32>>,
}

// The ways of an agent of a program with so many variables, without what they send.
fn paths_of(alloc: Global, agent: &AgentDecl, variables: u32) -> Result<AgentPaths, Memory>
    requires text { IsOfSome agent.now }
    ensures { IfOk result (λ paths. (unit : Whole) (number : ℕ) → IsAgentOf unit number agent.now → length unit.variables ≡ variables
        → AreStatedPaths unit.functions agent.now paths) }
{
    let nexts = nexts_by_point(alloc, agent)?;
    let looks = looks_by_point(alloc, agent, variables)?;
    Ok(AgentPaths { nexts, looks })
}

/// By agent and point, the most sends to each stream on the ways by the statements to each point where they end. The only error is want of
/// memory.
pub fn sends(alloc: Global, unit: &Unit) -> Result<Items<Items<Items<SendWay>>>, Memory>
    requires text { IsOfText unit.now }
    ensures { IfOk result (AreByPoint (points_of unit.now) (λ agent. AreSends unit.now.functions (agent_at unit.now agent))) }
{
    let streams = unit.streams.len() as u32;
    let mut sends = Items::new(alloc);
    'agents: for number in 0..unit.agents.len() {
        let agent = &unit.agents.as_slice()[number];
        let own = sends_by_point(alloc, agent, streams)?;
        push(&mut sends, own)?;
    }
    Ok(sends)
}

/// The ways of a program's actions by its statements: from each point of each agent the points where they end, the variables at which they
/// look, and the most sends to each stream on the ways to each of these points; and by stream the greatest delay of the sends to it. The only
/// error is want of memory.
pub fn ways(alloc: Global, unit: &Unit) -> Result<Ways, Memory>
    requires text { IsOfText unit.now }
    ensures { IfOk result (AreWaysOf unit.now) }
{
    let variables = unit.variables.len() as u32;
    let mut nexts = Items::new(alloc);
    let mut looks = Items::new(alloc);
    'agents: for number in 0..unit.agents.len() {
        let agent = &unit.agents.as_slice()[number];
        let own = paths_of(alloc, agent, variables)?;
        push(&mut nexts, own.nexts)?;
        push(&mut looks, own.looks)?;
    }
    let sends = sends(alloc, unit)?;
    let delays = delays(alloc, unit)?;
    Ok(Ways {
        nexts,
        looks,
        sends,
        delays,
    })
}
