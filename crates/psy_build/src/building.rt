//! From a program to the bytes of its image.
ghost use Rattle.std.specs.Prelude.{◌≡◌, ◌<◌, ◌≤◌, ◌⊎◌, IfErr, IfOk, List, ℕ, length};
ghost use Rattle.psy_base.specs.declared.limits.TheConstants.{FILE_BYTES};
ghost use Rattle.psy_gen.specs.Emission.{code_of};
ghost use Rattle.psy_image.specs.declared.fault.ImageFault.TheVariants.{Large, Memory};
ghost use Rattle.psy_image.specs.Answers.{image_of};
ghost use Rattle.psy_image.specs.Images.{spells_image};
ghost use Rattle.psy_plan.specs.Programs.{IsProgram};

use crate::laws::ranges;
use psy_gen::generate;
use psy_image::{ImageFault, encode};
use psy_plan::laws::programs;
use psy_tree::Unit;
use std::alloc::Global;

/// The image of a program: of its unit and of the code that the compiler makes of it. `Large` exactly where it passes
/// 262,144 bytes, unless memory runs out.
pub fn build(alloc: Global, unit: &Unit) -> Result<Vec<u8>, ImageFault>
    requires program { (bytes : List ℕ) × (length bytes ≤ FILE_BYTES) × IsProgram bytes unit.now }
    ensures spelled { IfOk result (λ out. spells_image (image_of unit.now (code_of unit.now)) out.items) }
    ensures few { IfOk result (λ out. length out.items ≤ FILE_BYTES) }
    ensures large { IfErr result (λ fault. fault ≡ Large → (out : List ℕ) × spells_image (image_of unit.now (code_of unit.now)) out
        × (FILE_BYTES < length out)) }
    ensures fault { IfErr result (λ fault. (fault ≡ Large) ⊎ (fault ≡ Memory)) }
{
    programs();
    ranges();
    let code = generate(alloc, unit)?;
    encode(alloc, unit, &code)
}
