//! How much an agent's machine holds at most.

ghost use Rattle.std.specs.Prelude.{◌≡◌, ◌<◌, length, slice_get, Some};
ghost use Rattle.psy_tree.specs.declared.unit.AgentDecl.{AgentDecl};
ghost use Rattle.psy_meaning.specs.Depths.{agent_depth};
ghost use Rattle.psy_meaning.specs.Units.{IsOfText};

use psy_flow::depth_of_stack;
use psy_tree::Unit;

/// Operands, and cells and counters of open calls.
#[derive(Clone, Copy, Debug)]
pub struct Limits {
    pub stack: u32,
    pub frames: u32,
}

pub fn limits_of(unit: &Unit, agent: u32) -> Limits
    requires text { IsOfText unit.now }
    requires agent { agent < length unit.now.agents }
    ensures stack { (a : AgentDecl) → slice_get unit.now.agents agent ≡ Some a → result.stack ≡ (agent_depth unit.now a).operands }
    ensures frames { (a : AgentDecl) → slice_get unit.now.agents agent ≡ Some a → result.frames ≡ (agent_depth unit.now a).cells }
{
    let depths = depth_of_stack(unit, agent);
    Limits {
        stack: depths.operands as u32,
        frames: depths.cells as u32,
    }
}
