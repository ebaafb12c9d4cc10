//! The commands of images: each is its list of steps.
ghost use Rattle.std.specs.Prelude.{◌≡◌, ◌≤◌, IfOk, IfErr, OnOk, option_copied};
ghost use Rattle.psy_run.specs.Answer.{building, executing};
ghost use Rattle.psy_run.specs.Outcome.{CanServe, Halts, TookLimit, Unfailed};
ghost use Rattle.psy_run.specs.Services.{service_of};

use crate::images::{boot_image, decode, image_of, supply_by, verify};
use crate::refusal::{File, Stop};
use crate::served::Served;
use crate::steps::{compile, read};
use crate::told::{inputs_of, pace, script_of};
use psy_door::Shelf;
use std::alloc::Global;

/// `build PROG`
pub fn build<F: Shelf>(alloc: Global, shelf: &mut F, name: &str) -> Result<Served, Stop>
    ensures ok { IfOk result (λ served. (building (F.files shelf.old) name.now).gives (service_of served)) }
    ensures err { IfErr result (Halts (building (F.files shelf.old) name.now) (F.failed_name shelf.new) (F.faults shelf.old) (F.faults shelf.new)) }
    ensures long { IfErr result (TookLimit (F.taken shelf.new)) }
    ensures unfailed { OnOk result (F.faults shelf.new ≡ F.faults shelf.old) }
    ensures unread { IfErr result (Unfailed (F.faults shelf.old) (F.faults shelf.new)) }
    ensures can { IfOk result CanServe }
    ensures shelf { (F.faults shelf.old ≤ F.faults shelf.new) × (F.files shelf.new ≡ F.files shelf.old) }
{
    let unit = compile(alloc, shelf, name)?;
    let image = image_of(alloc, &unit)?;
    Ok(Served::Built(image))
}

/// `exec IMAGE UNTIL [INPUTS [SCRIPT]]`
pub fn exec<F: Shelf>(
    alloc: Global,
    shelf: &mut F,
    name: &str,
    until: u32,
    inputs: Option<&str>,
    script: Option<&str>,
) -> Result<Served, Stop>
    ensures ok { IfOk result (λ served. (executing (F.files shelf.old) name.now until (option_copied inputs.entry) (option_copied script.entry)).gives
        (service_of served)) }
    ensures err { IfErr result (Halts (executing (F.files shelf.old) name.now until (option_copied inputs.entry) (option_copied script.entry))
        (F.failed_name shelf.new) (F.faults shelf.old) (F.faults shelf.new)) }
    ensures long { IfErr result (TookLimit (F.taken shelf.new)) }
    ensures unfailed { OnOk result (F.faults shelf.new ≡ F.faults shelf.old) }
    ensures unread { IfErr result (Unfailed (F.faults shelf.old) (F.faults shelf.new)) }
    ensures can { IfOk result CanServe }
    ensures shelf { (F.faults shelf.old ≤ F.faults shelf.new) × (F.files shelf.new ≡ F.files shelf.old) }
{
    let bytes = read(alloc, shelf, File::Image, name)?;
    let image = decode(alloc, &bytes)?;
    let checked = verify(alloc, image)?;
    let found = supply_by(alloc, &checked.image.unit, &checked.ways, until)?;
    let inputs = inputs_of(alloc, shelf, &checked.image.unit, inputs)?;
    let script = script_of(alloc, shelf, &checked.image.unit, script)?;
    pace(&checked.image.unit, until)?;
    match boot_image(alloc, checked, found, until, inputs, script) {
        Ok(kernel) => Ok(Served::Executed(kernel)),
        Err(_) => Err(Stop::Memory),
    }
}
