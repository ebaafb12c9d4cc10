//! The commands on states: one saves what a run leaves, one goes on from it. Each is its list of steps.
ghost use Rattle.std.specs.Prelude.{◌≡◌, ◌≤◌, ◌<◌, ◌⊎◌, ℕ, ℤ, List, length, IfErr, IfOk, OnOk, option_copied};
ghost use Rattle.psy_base.specs.declared.limits.TheConstants.{FILE_BYTES};
ghost use Rattle.psy_budget.specs.declared.charge.Stall.{Stall};
ghost use Rattle.psy_dates.specs.Beginnings.{behind};
ghost use Rattle.psy_dates.specs.Plans.{IsSoundFor};
ghost use Rattle.psy_graph.specs.Graphs.{AreGraphsBy};
ghost use Rattle.psy_kernel.specs.Resuming.{HasShapeOf};
ghost use Rattle.psy_kernel.specs.Runs.{ended};
ghost use Rattle.psy_meaning.specs.Units.{IsBare};
ghost use Rattle.psy_run.specs.declared.served.Served.{Served as Done};
ghost use Rattle.psy_run.specs.Answer.{leaving_of, resuming, saving};
ghost use Rattle.psy_run.specs.Outcome.{CanServe, Halts, TookLimit, Unfailed};
ghost use Rattle.psy_run.specs.Planned.{IsPlanned};
ghost use Rattle.psy_run.specs.Services.{saved_run, service_of, text_of};
ghost use Rattle.psy_run.specs.Steps.{restoring};
ghost use Rattle.psy_snap.specs.Forms.{form_of};
ghost use Rattle.psy_tree.specs.Parts.{agent_at};

use crate::plan::{Drawn, drawn_of};
use crate::ready::ready;
use crate::refusal::{AgentName, File, Refusal, Stop};
use crate::run::pass_dates;
use crate::served::Served;
use crate::steps::{compile, read};
use crate::supply::supply;
use crate::told::{inputs_of, pace, script_of};
use psy_dates::Opening;
use psy_door::Shelf;
use psy_history::laws::alike_behind;
use psy_kernel::Kernel;
use psy_save::laws::quiet_alike;
use psy_save::{SaveFault, restore};
use psy_snap::StateFault;
use psy_tree::Unit;
use std::alloc::Global;

// Why a run leaves no state whose agent of this number has an action under way.
fn busy(alloc: Global, unit: &Unit, agent: u32) -> Stop
    requires known { agent < length unit.now.agents }
    requires bare { IsBare unit.now }
    ensures { (result ≡ Stop.Refused (Refusal.Busy (agent_at unit.now agent).name)) ⊎ (result ≡ Stop.Memory) }
{
    match AgentName::of(alloc, unit.agents.as_slice()[agent as usize].name.bytes()) {
        Ok(name) => Stop::Refused(Refusal::Busy(name)),
        Err(_) => Stop::Memory,
    }
}

// Runs a kernel that was just booted, and gives the bytes of the state that it leaves.
fn leave(alloc: Global, kernel: &mut Kernel) -> Result<Vec<u8>, Stop>
    requires can { CanServe (Done.Ran kernel.old) }
    ensures over { OnOk result (kernel.new ≡ ended kernel.old) }
    ensures left { IfOk result (λ bytes. bytes.items ≡ text_of (saved_run kernel.old)) }
    ensures given { OnOk result ((leaving_of kernel.old).gives tt) }
    ensures err { (failed : List ℕ) (before after : ℕ) → IfErr result (Halts (leaving_of kernel.old) failed before after) }
{
    alike_behind();
    quiet_alike();
    pass_dates(kernel);
    match psy_save::save(alloc, kernel) {
        Ok(bytes) => Ok(bytes),
        Err(SaveFault::Busy(agent)) => Err(busy(alloc, &kernel.plan().unit, agent)),
        Err(SaveFault::Large) => Err(Stop::Refused(Refusal::LongState)),
        Err(SaveFault::Memory) => Err(Stop::Memory),
    }
}

// The same, with the kernel once it ran.
fn saved(alloc: Global, mut kernel: Kernel) -> Result<Served, Stop>
    requires can { CanServe (Done.Ran kernel) }
    ensures saved { IfOk result (λ served. service_of served ≡ saved_run kernel) }
    ensures can { IfOk result CanServe }
    ensures given { OnOk result ((leaving_of kernel).gives tt) }
    ensures err { (failed : List ℕ) (before after : ℕ) → IfErr result (Halts (leaving_of kernel) failed before after) }
{
    match leave(alloc, &mut kernel) {
        Ok(bytes) => Ok(Served::Saved(kernel, bytes)),
        Err(stop) => Err(stop),
    }
}

/// `save PROG DATE [INPUTS [SCRIPT]]`
pub fn save<F: Shelf>(
    alloc: Global,
    shelf: &mut F,
    name: &str,
    date: u32,
    inputs: Option<&str>,
    script: Option<&str>,
) -> Result<Served, Stop>
    ensures ok { IfOk result (λ served. (saving (F.files shelf.old) name.now date (option_copied inputs.entry) (option_copied script.entry)).gives
        (service_of served)) }
    ensures err { IfErr result (Halts (saving (F.files shelf.old) name.now date (option_copied inputs.entry) (option_copied script.entry))
        (F.failed_name shelf.new) (F.faults shelf.old) (F.faults shelf.new)) }
    ensures long { IfErr result (TookLimit (F.taken shelf.new)) }
    ensures unfailed { OnOk result (F.faults shelf.new ≡ F.faults shelf.old) }
    ensures unread { IfErr result (Unfailed (F.faults shelf.old) (F.faults shelf.new)) }
    ensures can { IfOk result CanServe }
    ensures shelf { (F.faults shelf.old ≤ F.faults shelf.new) × (F.files shelf.new ≡ F.files shelf.old) }
{
    let kernel = ready(alloc, shelf, name, date, inputs, script)?;
    saved(alloc, kernel)
}

// The state that bytes spell, from which runs of a plan may go on.
fn restored(alloc: Global, bytes: &Vec<u8>, drawn: &Drawn) -> Result<Opening, Stop>
    requires few { length bytes.now.items ≤ FILE_BYTES }
    requires plan { IsPlanned drawn.now.plan }
    requires drawn { AreGraphsBy drawn.now.plan.unit drawn.now.plan.nexts drawn.now.graphs }
    ensures ok { IfOk result (λ state. (restoring (form_of drawn.now.plan drawn.now.graphs) bytes.now.items).gives state) }
    ensures shape { IfOk result (HasShapeOf drawn.now.plan) }
    ensures sound { IfOk result (λ state. (inputs : List (List ℤ)) (stalls : ℕ → List Stall)
        → IsSoundFor drawn.now.plan (behind drawn.now.plan state) inputs stalls) }
    ensures err { (failed : List ℕ) (before after : ℕ)
        → IfErr result (Halts (restoring (form_of drawn.now.plan drawn.now.graphs) bytes.now.items) failed before after) }
{
    match restore(
        alloc,
        bytes.as_slice(),
        &drawn.plan,
        drawn.graphs.as_slice(),
    ) {
        Ok(state) => Ok(state),
        Err(StateFault::Fault { number, place }) => {
            Err(Stop::Refused(Refusal::State { number, place }))
        }
        Err(StateFault::Memory) => Err(Stop::Memory),
    }
}

/// `resume PROG STATE UNTIL [INPUTS [SCRIPT]]`
pub fn resume<F: Shelf>(
    alloc: Global,
    shelf: &mut F,
    name: &str,
    state: &str,
    until: u32,
    inputs: Option<&str>,
    script: Option<&str>,
) -> Result<Served, Stop>
    ensures ok { IfOk result (λ served. (resuming (F.files shelf.old) name.now state.now until (option_copied inputs.entry) (option_copied script.entry)).gives
        (service_of served)) }
    ensures err { IfErr result (Halts (resuming (F.files shelf.old) name.now state.now until (option_copied inputs.entry) (option_copied script.entry))
        (F.failed_name shelf.new) (F.faults shelf.old) (F.faults shelf.new)) }
    ensures long { IfErr result (TookLimit (F.taken shelf.new)) }
    ensures unfailed { OnOk result (F.faults shelf.new ≡ F.faults shelf.old) }
    ensures unread { IfErr result (Unfailed (F.faults shelf.old) (F.faults shelf.new)) }
    ensures can { IfOk result CanServe }
    ensures shelf { (F.faults shelf.old ≤ F.faults shelf.new) × (F.files shelf.new ≡ F.files shelf.old) }
{
    let unit = compile(alloc, shelf, name)?;
    let supply = supply(alloc, &unit, until)?;
    let drawn = drawn_of(unit, supply, until);
    let bytes = read(alloc, shelf, File::State, state)?;
    let opening = restored(alloc, &bytes, &drawn)?;
    let inputs = inputs_of(alloc, shelf, &drawn.plan.unit, inputs)?;
    let script = script_of(alloc, shelf, &drawn.plan.unit, script)?;
    pace(&drawn.plan.unit, until)?;
    match Kernel::open(alloc, drawn.plan, opening, inputs, script) {
        Ok(kernel) => Ok(Served::Resumed(kernel)),
        Err(_) => Err(Stop::Memory),
    }
}
