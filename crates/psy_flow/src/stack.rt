//! How deep the operands, cells and counters of an agent's machine grow.
ghost use Rattle.std.specs.Prelude.{◌≡◌, ◌<◌, ◌≤◌, ◌+◌, ◌*◌, length, slice_get, Some};
ghost use Rattle.psy_base.specs.declared.limits.TheConstants.{FUNCTIONS, NAMES};
ghost use Rattle.psy_tree.specs.declared.unit.AgentDecl.{AgentDecl};
ghost use Rattle.psy_meaning.specs.Depths.{stmts_depth, agent_depth};
ghost use Rattle.psy_meaning.specs.Sizes.{unit_size};
ghost use Rattle.psy_meaning.specs.Units.{IsOfText};
ghost use Rattle.psy_flow.specs.Counted.{held, capped_depth, counted_calls};

use crate::calls::depths_of_calls;
use crate::depths::Depths;
use crate::statements::depth_of_stmts;
use psy_tree::Unit;

/// The operands, and the cells and counters of open calls, that the machine of an agent holds at most. The operands are
/// no more than the unit's instructions; each open call has at most 64 parameters and locals, and a counter for a loop.
pub fn depth_of_stack(unit: &Unit, agent: u32) -> Depths
    requires text { IsOfText unit.now }
    requires agent { agent < length unit.now.agents }
    ensures depth { (a : AgentDecl) → slice_get unit.now.agents agent ≡ Some a → held result ≡ agent_depth unit.now a }
    ensures within { (result.operands ≤ unit_size unit.now) × (result.cells ≤ unit_size unit.now + FUNCTIONS * NAMES) }
{
    counted_depth(unit, agent)
}

/// The same as far as it can be counted, which for the unit of a text is as far as it goes.
pub fn counted_depth(unit: &Unit, agent: u32) -> Depths
    requires functions { length unit.now.functions ≤ FUNCTIONS }
    requires agent { agent < length unit.now.agents }
    ensures { (a : AgentDecl) → slice_get unit.now.agents agent ≡ Some a → held result ≡ capped_depth (stmts_depth (counted_calls unit.now.functions) a.stmts) }
{
    let functions = unit.functions.as_slice();
    let row = depths_of_calls(functions);
    let agent = &unit.agents.as_slice()[agent as usize];
    depth_of_stmts(&row[..functions.len()], agent.stmts.as_slice())
}
