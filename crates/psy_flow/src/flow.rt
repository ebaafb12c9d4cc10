//! What follows each point of an agent's body.

ghost use Rattle.std.specs.Prelude.{◌≡◌, ◌<◌, ◌↔◌, ℕ, true, length, slice_get, Some};
ghost use Rattle.psy_base.specs.declared.limits.TheConstants.{COST};
ghost use Rattle.psy_tree.specs.declared.unit.AgentDecl.{AgentDecl};
ghost use Rattle.psy_tree.specs.declared.unit.Unit.{Unit as Whole};
ghost use Rattle.psy_meaning.specs.Units.{IsOfText};
ghost use Rattle.psy_flow.specs.Agents.{IsOfSome, IsAgentOf};
ghost use Rattle.psy_meaning.specs.Flow.{HasCost, IsCut, IsMostSends, MayLook};

use crate::costs::costs_of_calls;
use crate::gauge::Gauge;
use crate::laws::known;
use crate::points::tops_from;
use psy_tree::{AgentDecl, Unit};

/// The greatest cost of an action from a point, in instructions, cut at 1,000,000,000.
pub fn worst(unit: &Unit, agent: u32, point: u32) -> u64
    requires text { IsOfText unit.now }
    requires agent { agent < length unit.now.agents }
    requires point { (a : AgentDecl) → slice_get unit.now.agents agent ≡ Some a → point < length a.points }
    ensures { (a : AgentDecl) → slice_get unit.now.agents agent ≡ Some a → IsCut (HasCost unit.now.functions a point) COST result }
{
    known();
    let functions = unit.functions.as_slice();
    let costs = costs_of_calls(Gauge::Steps, functions);
    let agent = &unit.agents.as_slice()[agent as usize];
    let row = &costs[..functions.len()];
    let tops = tops_from(Gauge::Steps, None, row, agent.stmts.as_slice(), point);
    tops.to.unwrap_or(0)
}

/// The most sends to a stream on a way from a point to another as the next one, cut at 65,537; 0 where there
/// is no such way.
pub fn most_sends(agent: &AgentDecl, point: u32, to: u32, stream: u32) -> u64
    requires text { IsOfSome agent.now }
    requires point { point < length agent.now.points }
    ensures { (unit : Whole) (number : ℕ) → IsAgentOf unit number agent.now → IsMostSends unit.functions agent.now point to stream result }
{
    known();
    let tops = tops_from(
        Gauge::Sends(stream),
        Some(to),
        &[],
        agent.stmts.as_slice(),
        point,
    );
    tops.to.unwrap_or(0)
}

/// Whether a way from a point to the next one may look at a variable.
pub fn looks(agent: &AgentDecl, point: u32, variable: u32) -> bool
    requires text { IsOfSome agent.now }
    requires point { point < length agent.now.points }
    ensures { (unit : Whole) (number : ℕ) → IsAgentOf unit number agent.now → ((result ≡ true) ↔ MayLook unit.functions agent.now point variable) }
{
    known();
    let tops = tops_from(
        Gauge::Looks(variable),
        None,
        &[],
        agent.stmts.as_slice(),
        point,
    );
    tops.to.unwrap_or(0) > 0
}
