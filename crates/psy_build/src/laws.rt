//! A law of the definitions, as the contract of a function that does nothing.
ghost use Rattle.std.specs.Prelude.{◌≤◌, ℕ, List, length};
ghost use Rattle.psy_base.specs.declared.limits.TheConstants.{FILE_BYTES};
ghost use Rattle.psy_gen.specs.Emission.{code_of};
ghost use Rattle.psy_image.specs.Answers.{KeepRanges};
ghost use Rattle.psy_plan.specs.Programs.{IsProgram};
ghost use Rattle.psy_tree.specs.declared.unit.Unit.{Unit as Whole};

use psy_gen::laws::alike;
use psy_image::laws::names;
use psy_meaning::laws::{of_text, sound};
use psy_plan::laws::programs;

/// What the compiler makes of a program keeps the ranges of an image, so it can be written as one.
pub fn ranges()
    ensures { (bytes : List ℕ) (unit : Whole) → length bytes ≤ FILE_BYTES → IsProgram bytes unit → KeepRanges unit (code_of unit) }
{
    programs();
    sound();
    of_text();
    alike();
    names();
}
