//! From a program in a file to a kernel that was just booted.
ghost use Rattle.std.specs.Prelude.{◌≡◌, ◌≤◌, List, IfOk, IfErr, OnOk, option_copied};
ghost use Rattle.psy_history.specs.Compiled.{AreInputs};
ghost use Rattle.psy_history.specs.Scripts.{IsScript};
ghost use Rattle.psy_gen.specs.Emission.{code_of};
ghost use Rattle.psy_kernel.specs.Progress.{booted};
ghost use Rattle.psy_meaning.specs.Alike.{ActsAlike};
ghost use Rattle.psy_meaning.specs.ListedWays.{AreWaysOf};
ghost use Rattle.psy_meaning.specs.Units.{IsOfText};
ghost use Rattle.psy_run.specs.declared.served.Served.{Served as Done};
ghost use Rattle.psy_run.specs.Answer.{running, supplying};
ghost use Rattle.psy_run.specs.Outcome.{CanServe, Halts, TookLimit, Unfailed};
ghost use Rattle.psy_run.specs.Planned.{IsPlanned};
ghost use Rattle.psy_run.specs.Services.{service_of};
ghost use Rattle.psy_run.specs.Supplies.{supply_of};

use crate::plan::plan_of;
use crate::refusal::Stop;
use crate::steps::compile;
use crate::supply::{Supplied, supply};
use crate::told::{inputs_of, pace, script_of};
use psy_base::Memory;
use psy_door::Shelf;
use psy_history::{Inputs, Script};
use psy_kernel::Kernel;
use psy_tree::Unit;
use std::alloc::Global;

/// A kernel of a program that can be run up to a date, with these inputs and this script of it.
pub fn boot(
    alloc: Global,
    unit: Unit,
    supply: Supplied,
    until: u32,
    inputs: Inputs,
    script: Script,
) -> Result<Kernel, Memory>
    requires text { IsOfText unit }
    requires code { supply.code ≡ code_of unit }
    requires alike { ActsAlike unit supply.code }
    requires ways { AreWaysOf unit supply.ways }
    requires supplied { (supplying unit until).gives (supply_of supply) }
    requires inputs { AreInputs unit inputs.lists }
    requires script { IsScript unit script }
    ensures booted { IfOk result (λ kernel. kernel ≡ booted kernel.plan inputs.lists script) }
    ensures plan { IfOk result (λ kernel. IsPlanned kernel.plan) }
    ensures its_unit { IfOk result (λ kernel. kernel.plan.unit ≡ unit) }
    ensures its_nexts { IfOk result (λ kernel. kernel.plan.nexts ≡ supply.ways.nexts) }
    ensures its_sizes { IfOk result (λ kernel. kernel.plan.sizes ≡ supply.sizes) }
    ensures its_until { IfOk result (λ kernel. kernel.plan.until ≡ until) }
{
    let plan = plan_of(unit, supply, until);
    Kernel::boot(alloc, plan, inputs, script)
}

/// A kernel that runs the program in a file up to a date, with the inputs and the script in files: what `run` and `trace` begin with.
pub fn ready<F: Shelf>(
    alloc: Global,
    shelf: &mut F,
    name: &str,
    until: u32,
    inputs: Option<&str>,
    script: Option<&str>,
) -> Result<Kernel, Stop>
    ensures ok { IfOk result (λ kernel. (running (F.files shelf.old) name.now until (option_copied inputs.entry) (option_copied script.entry)).gives
        (service_of (Done.Ran kernel))) }
    ensures err { IfErr result (Halts (running (F.files shelf.old) name.now until (option_copied inputs.entry) (option_copied script.entry))
        (F.failed_name shelf.new) (F.faults shelf.old) (F.faults shelf.new)) }
    ensures long { IfErr result (TookLimit (F.taken shelf.new)) }
    ensures unfailed { OnOk result (F.faults shelf.new ≡ F.faults shelf.old) }
    ensures unread { IfErr result (Unfailed (F.faults shelf.old) (F.faults shelf.new)) }
    ensures can { IfOk result (λ kernel. CanServe (Done.Ran kernel)) }
    ensures shelf { (F.faults shelf.old ≤ F.faults shelf.new) × (F.files shelf.new ≡ F.files shelf.old) }
{
    let unit = compile(alloc, shelf, name)?;
    let supply = supply(alloc, &unit, until)?;
    let inputs = inputs_of(alloc, shelf, &unit, inputs)?;
    let script = script_of(alloc, shelf, &unit, script)?;
    pace(&unit, until)?;
    match boot(alloc, unit, supply, until, inputs, script) {
        Ok(kernel) => Ok(kernel),
        Err(_) => Err(Stop::Memory),
    }
}
