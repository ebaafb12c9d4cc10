//! From an image to code that is verified, with its ways.

ghost use Rattle.std.specs.Prelude.{◌≡◌, IfErr, IfOk, List, ℕ, Err};
ghost use Rattle.psy_flow.specs.Verified.{IsLeastFault, IsVerified};
ghost use Rattle.psy_image.specs.Images.{spells_image};
ghost use Rattle.psy_judge.specs.declared.verdict.VerifyFault.TheVariants as verify_fault;
ghost use Rattle.psy_verify.specs.Fits.{GivesFault, IsChecked};

use crate::laws::{fits, images, rules};
use psy_base::Ways;
use psy_flow::code_ways;
use psy_image::Image;
use psy_judge::{VerifyFault, judge};
use std::alloc::Global;

/// An image whose code is verified, with the ways of its actions.
#[derive(Drop)]
pub struct Checked {
    pub image: Image,
    pub ways: Ways,
}

/// Judges the code of an image: its ways where it is verified, else the least fault by place, then number. The only other error is want of
/// memory.
pub fn verify(alloc: Global, image: Image) -> Result<Checked, VerifyFault>
    requires spelled { (bytes : List ℕ) × spells_image image bytes }
    ensures same { IfOk result (λ checked. checked.image ≡ image) }
    ensures checked { IfOk result (λ checked. IsChecked image.unit image.code checked.ways) }
    ensures fault { (number place : ℕ) → result ≡ Err (verify_fault.Fault number place) → IsLeastFault image.unit image.code number place }

    // What holds of the code is answered, unless memory runs out.
    ensures verified { IsVerified image.unit image.code → IfErr result (λ fault. fault ≡ verify_fault.Memory) }
    ensures least { (number place : ℕ) → IsLeastFault image.unit image.code number place → GivesFault result number place }
{
    images();
    fits();
    rules();
    judge(alloc, &image.unit, &image.code)?;
    let ways = code_ways(alloc, &image.unit, &image.code)?;
    Ok(Checked { image, ways })
}
