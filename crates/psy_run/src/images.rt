//! The steps from a program to its image, and from the bytes of an image to a kernel that runs its code.
ghost use Rattle.std.specs.Prelude.{◌≡◌, ◌≤◌, ℕ, List, length, FitsSigned, IfErr, IfOk};
ghost use Rattle.std.specs.Int.{w32};
ghost use Rattle.std.specs.List.{All};
ghost use Rattle.psy_base.specs.declared.limits.TheConstants.{FILE_BYTES};
ghost use Rattle.psy_dates.specs.Plans.{IsPlan};
ghost use Rattle.psy_history.specs.Compiled.{AreInputs};
ghost use Rattle.psy_history.specs.Scripts.{IsScript};
ghost use Rattle.psy_image.specs.Images.{spells_image};
ghost use Rattle.psy_kernel.specs.Progress.{booted};
ghost use Rattle.psy_meaning.specs.ListedWays.{AreWaysFor};
ghost use Rattle.psy_meaning.specs.Units.{IsBare};
ghost use Rattle.psy_plan.specs.Programs.{IsProgram};
ghost use Rattle.psy_plan.specs.Supplies.{supply_of};
ghost use Rattle.psy_run.specs.Answer.{supplying_by};
ghost use Rattle.psy_run.specs.Outcome.{Halts};
ghost use Rattle.psy_run.specs.Steps.{decoding, imaging, verifying};
ghost use Rattle.psy_verify.specs.Fits.{IsChecked};

use crate::laws::fits_by;
use crate::refusal::{Refusal, Stop, stopped};
use psy_base::{Memory, Ways};
use psy_dates::Plan;
use psy_history::{Inputs, Script};
use psy_image::{Image, ImageFault};
use psy_kernel::Kernel;
use psy_plan::{Supplied, plan_by};
use psy_tree::Unit;
use psy_verify::laws::{fits, images};
use psy_verify::{Checked, VerifyFault};
use std::alloc::Global;

/// The image of a program.
pub fn image_of(alloc: Global, unit: &Unit) -> Result<Vec<u8>, Stop>
    requires program { (bytes : List ℕ) × (length bytes ≤ FILE_BYTES) × IsProgram bytes unit.now }
    ensures ok { IfOk result (λ image. (imaging unit.now).gives image.items) }
    ensures err { (failed : List ℕ) (before after : ℕ) → IfErr result (Halts (imaging unit.now) failed before after) }
{
    match psy_build::build(alloc, unit) {
        Ok(image) => Ok(image),
        Err(ImageFault::Large) => Err(Stop::Refused(Refusal::Large)),
        Err(ImageFault::Memory) => Err(Stop::Memory),
        Err(ImageFault::Bad(_)) => unreachable!(),
    }
}

/// The image that bytes spell, of which there are at most 262,144.
pub fn decode(alloc: Global, bytes: &Vec<u8>) -> Result<Image, Stop>
    requires { length bytes.now.items ≤ FILE_BYTES }
    ensures ok { IfOk result (λ it. (decoding bytes.now.items).gives it) }
    ensures err { (failed : List ℕ) (before after : ℕ) → IfErr result (Halts (decoding bytes.now.items) failed before after) }
{
    match psy_image::decode(alloc, bytes.as_slice()) {
        Ok(image) => Ok(image),
        Err(ImageFault::Bad(place)) => Err(Stop::Refused(Refusal::Image(place))),
        Err(ImageFault::Memory) => Err(Stop::Memory),
        Err(ImageFault::Large) => unreachable!(),
    }
}

/// An image whose code is verified, with the ways of the code.
pub fn verify(alloc: Global, image: Image) -> Result<Checked, Stop>
    requires spelled { (bytes : List ℕ) × spells_image image bytes }
    ensures same { IfOk result (λ checked. checked.image ≡ image) }
    ensures ok { IfOk result (λ checked. (verifying image).gives checked.ways) }
    ensures bare { IfOk result (λ checked. IsBare checked.image.unit) }
    ensures inits { IfOk result (λ checked. All (λ v. FitsSigned w32 v.init) checked.image.unit.variables) }
    ensures checked { IfOk result (λ checked. IsChecked checked.image.unit checked.image.code checked.ways) }
    ensures ways { IfOk result (λ checked. AreWaysFor checked.image.unit checked.ways) }
    ensures err { (failed : List ℕ) (before after : ℕ) → IfErr result (Halts (verifying image) failed before after) }
{
    images();
    fits();
    match psy_verify::verify(alloc, image) {
        Ok(checked) => Ok(checked),
        Err(VerifyFault::Fault { number, place }) => {
            Err(Stop::Refused(Refusal::Code { number, place }))
        }
        Err(VerifyFault::Memory) => Err(Stop::Memory),
    }
}

/// Whether its processors can run an image by the ways of its code: its buffers keep their limits, and what its agents may demand over each length up
/// to the horizon, or up to a date where that comes first, is supplied.
pub fn supply_by(alloc: Global, unit: &Unit, ways: &Ways, until: u32) -> Result<Supplied, Stop>
    requires bare { IsBare unit.now }
    requires ways { AreWaysFor unit.now ways.now }
    ensures ok { IfOk result (λ found. (supplying_by unit.now ways.now until).gives (supply_of ways.now.nexts found)) }
    ensures err { (failed : List ℕ) (before after : ℕ) → IfErr result (Halts (supplying_by unit.now ways.now until) failed before after) }
{
    match plan_by(alloc, unit, ways, until) {
        Ok(found) => Ok(found),
        Err(stop) => Err(stopped(stop)),
    }
}

/// The plan of an image whose code is verified, and whose demand its processors can supply up to a date.
pub fn plan_of(checked: Checked, found: Supplied, until: u32) -> Plan
    requires bare { IsBare checked.image.unit }
    requires inits { All (λ v. FitsSigned w32 v.init) checked.image.unit.variables }
    requires checked { IsChecked checked.image.unit checked.image.code checked.ways }
    requires supplied { (supplying_by checked.image.unit checked.ways until).gives (supply_of checked.ways.nexts found) }
    ensures plan { IsPlan result }
    ensures its_unit { result.unit ≡ checked.image.unit }
    ensures its_code { result.code ≡ checked.image.code }
    ensures its_nexts { result.nexts ≡ checked.ways.nexts }
    ensures its_sizes { result.sizes ≡ found.sizes }
    ensures its_until { result.until ≡ until }
{
    fits_by();
    let image = checked.image;
    let ways = checked.ways;
    Plan {
        unit: image.unit,
        code: image.code,
        nexts: ways.nexts,
        sizes: found.sizes,
        until,
    }
}

/// A kernel of such an image, with these inputs and this script of it.
pub fn boot_image(
    alloc: Global,
    checked: Checked,
    found: Supplied,
    until: u32,
    inputs: Inputs,
    script: Script,
) -> Result<Kernel, Memory>
    requires bare { IsBare checked.image.unit }
    requires inits { All (λ v. FitsSigned w32 v.init) checked.image.unit.variables }
    requires checked { IsChecked checked.image.unit checked.image.code checked.ways }
    requires supplied { (supplying_by checked.image.unit checked.ways until).gives (supply_of checked.ways.nexts found) }
    requires inputs { AreInputs checked.image.unit inputs.lists }
    requires script { IsScript checked.image.unit script }
    ensures booted { IfOk result (λ kernel. kernel ≡ booted kernel.plan inputs.lists script) }
    ensures plan { IfOk result (λ kernel. IsPlan kernel.plan) }
    ensures its_unit { IfOk result (λ kernel. kernel.plan.unit ≡ checked.image.unit) }
    ensures its_code { IfOk result (λ kernel. kernel.plan.code ≡ checked.image.code) }
    ensures its_nexts { IfOk result (λ kernel. kernel.plan.nexts ≡ checked.ways.nexts) }
    ensures its_sizes { IfOk result (λ kernel. kernel.plan.sizes ≡ found.sizes) }
    ensures its_until { IfOk result (λ kernel. kernel.plan.until ≡ until) }
{
    let plan = plan_of(checked, found, until);
    Kernel::boot(alloc, plan, inputs, script)
}
