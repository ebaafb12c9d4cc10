//! The code of a whole unit.
ghost use Rattle.std.specs.Prelude.{◌≡◌, ◌≤◌, length, IfOk};
ghost use Rattle.psy_meaning.specs.Alike.{ActsAlike};
ghost use Rattle.psy_meaning.specs.CodeWays.{CanWalk};
ghost use Rattle.psy_meaning.specs.Sizes.{unit_size};
ghost use Rattle.psy_meaning.specs.Units.{IsOfText};
ghost use Rattle.psy_flow.specs.Verified.{IsVerified};
ghost use Rattle.psy_gen.specs.Emission.{code_of};
ghost use Rattle.psy_gen.specs.Rooms.{HasRooms};
ghost use Rattle.psy_gen.specs.SameWays.{HasSameWays};

use crate::agents::emit_agents;
use crate::functions::emit_functions;
use crate::instrs::Instrs;
use crate::laws::{alike, same_ways, verified, walked};
use psy_base::Memory;
use psy_code::Code;
use psy_meaning::laws::sound;
use psy_tree::Unit;
use std::alloc::Global;

/// The code of a unit: its functions, then its agents. It acts as the unit's statements, instruction for
/// instruction of their cost, and asks for as much room as they hold at most; its ways end, look and send as theirs do, but
/// that a bounded loop may send more often on a way of code. The code is verified. The only error is want of memory.
pub fn generate(alloc: Global, unit: &Unit) -> Result<Code, Memory>
    requires text { IsOfText unit.now }
    ensures code { IfOk result (λ code. code ≡ code_of unit.now) }
    ensures alike { IfOk result (λ code. ActsAlike unit.now code) }
    ensures walk { IfOk result (CanWalk unit.now) }
    ensures ways { IfOk result (HasSameWays unit.now) }
    ensures rooms { IfOk result (HasRooms unit.now) }
    ensures verified { IfOk result (IsVerified unit.now) }
    ensures size { IfOk result (λ code. length code.instrs ≤ unit_size unit.now) }
{
    sound();
    alike();
    walked();
    same_ways();
    verified();
    let mut instrs = Instrs::new(alloc);
    let functions = emit_functions(alloc, &mut instrs, unit.functions.as_slice())?;
    let agents = emit_agents(alloc, &mut instrs, unit)?;
    Ok(Code {
        instrs: instrs.into_items(),
        agents,
        functions,
    })
}
