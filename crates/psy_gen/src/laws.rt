//! Laws of the definitions, each the contract of a function that does nothing.

ghost use Rattle.std.specs.Prelude.{◌≡◌};
ghost use Rattle.psy_base.specs.declared.ways.Ways.{Ways};
ghost use Rattle.psy_code.specs.declared.code.Code.{Code};
ghost use Rattle.psy_tree.specs.declared.unit.Unit.{Unit as Whole};
ghost use Rattle.psy_flow.specs.CodeLists.{AreCodePaths};
ghost use Rattle.psy_flow.specs.declared.paths.Paths.{Paths};
ghost use Rattle.psy_flow.specs.Verified.{IsVerified};
ghost use Rattle.psy_gen.specs.Emission.{code_of};
ghost use Rattle.psy_gen.specs.SameWays.{ArePathsOf, AreSameButSends, HasSameWays, SendsOutsideLoops};
ghost use Rattle.psy_meaning.specs.Alike.{ActsAlike};
ghost use Rattle.psy_meaning.specs.CodeWays.{AreCodeWays, CanWalk};
ghost use Rattle.psy_meaning.specs.ListedWays.{AreWaysOf};
ghost use Rattle.psy_meaning.specs.Sound.{IsSoundUnit};
ghost use Rattle.psy_meaning.specs.Units.{IsOfText};

use psy_code::laws::lasting;
use psy_flow::laws::{calls, known, marked, one_list, sends};
use psy_meaning::laws::{ends, sendings, sound};

/// The code of a unit whose statements name what they can name acts as the statements.
pub fn alike()
    ensures { (unit : Whole) → IsSoundUnit unit → ActsAlike unit (code_of unit) }
{
    lasting();
    ends();
}

/// The ways of the code of a unit of a text stay in the code, and what stands on them names what there is.
pub fn walked()
    ensures { (unit : Whole) → IsOfText unit → CanWalk unit (code_of unit) }
{
    sound();
}

/// The ways of the code of a unit of a text are those of its statements.
pub fn same_ways()
    ensures { (unit : Whole) → IsOfText unit → HasSameWays unit (code_of unit) }
{
    sound();
    known();
    calls();
    sendings();
}

/// Where the ways of code are those of a unit's statements, so are the lists of where they end, at what they look and how long messages take.
pub fn same_paths()
    ensures { (unit : Whole) (code : Code) (paths : Paths) → HasSameWays unit code → AreCodePaths unit code paths → ArePathsOf unit paths }
{}

/// Where the ways of code are those of a text's statements, so are their lists: all but the sends, and where no send stands in a bounded loop
/// these too.
pub fn same_lists()
    ensures all_but_sends { (unit : Whole) (code : Code) (ways coded : Ways) → HasSameWays unit code → AreWaysOf unit ways → AreCodeWays unit code coded
        → AreSameButSends ways coded }
    ensures all { (unit : Whole) (code : Code) (ways coded : Ways) → IsOfText unit → SendsOutsideLoops unit → HasSameWays unit code → AreWaysOf unit ways
        → AreCodeWays unit code coded → ways ≡ coded }
{
    one_list();
    sends();
}

/// The code of a unit of a text is verified, for the variables, streams and clocks of the unit.
pub fn verified()
    ensures { (unit : Whole) → IsOfText unit → IsVerified unit (code_of unit) }
{
    sound();
    known();
    calls();
    marked();
}
