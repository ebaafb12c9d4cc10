//! The code of a program, and the ways of its actions.
ghost use Rattle.std.specs.Prelude.{◌≡◌, IfOk};
ghost use Rattle.psy_gen.specs.Emission.{code_of};
ghost use Rattle.psy_gen.specs.SameWays.{HasSameWays};
ghost use Rattle.psy_meaning.specs.Alike.{ActsAlike};
ghost use Rattle.psy_meaning.specs.CodeWays.{CanWalk};
ghost use Rattle.psy_meaning.specs.ListedWays.{AreWaysOf};
ghost use Rattle.psy_meaning.specs.Units.{IsOfText};

use psy_base::{Memory, Ways};
use psy_code::Code;
use psy_flow::{code_paths, sends};
use psy_gen::generate;
use psy_gen::laws::same_paths;
use psy_tree::Unit;
use std::alloc::Global;

/// The code of a program, and the ways of its actions.
#[derive(Drop)]
pub struct Coded {
    pub code: Code,
    pub ways: Ways,
}

// Where actions end, at what they look and how long messages take are those of the code; what they send is that of the statements.
fn ways_of(alloc: Global, unit: &Unit, code: &Code) -> Result<Ways, Memory>
    requires text { IsOfText unit.now }
    requires walk { CanWalk unit.now code.now }
    requires same { HasSameWays unit.now code.now }
    ensures { IfOk result (AreWaysOf unit.now) }
{
    same_paths();
    let paths = code_paths(alloc, unit, code)?;
    let sends = sends(alloc, unit)?;
    Ok(Ways {
        nexts: paths.nexts,
        looks: paths.looks,
        sends,
        delays: paths.delays,
    })
}

/// The code of a program, and the ways of its actions, asked once of the code and once of the statements.
pub fn with_ways(alloc: Global, unit: &Unit) -> Result<Coded, Memory>
    requires text { IsOfText unit.now }
    ensures code { IfOk result (λ coded. coded.code ≡ code_of unit.now) }
    ensures alike { IfOk result (λ coded. ActsAlike unit.now coded.code) }
    ensures ways { IfOk result (λ coded. AreWaysOf unit.now coded.ways) }
{
    let code = generate(alloc, unit)?;
    let ways = ways_of(alloc, unit, &code)?;
    Ok(Coded { code, ways })
}
