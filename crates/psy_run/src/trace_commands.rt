//! The commands of traces: one tells what a run does, one judges such a text and runs no code. Each is its list of steps.
ghost use Rattle.std.specs.Prelude.{◌≡◌, ◌≤◌, ℕ, List, length, IfErr, IfOk, OnOk, option_copied};
ghost use Rattle.psy_base.specs.declared.limits.TheConstants.{FILE_BYTES};
ghost use Rattle.psy_dates.specs.Plans.{IsPlan};
ghost use Rattle.psy_gen.specs.Emission.{code_of};
ghost use Rattle.psy_history.specs.Scripts.{IsScript};
ghost use Rattle.psy_kernel.specs.Runs.{ended};
ghost use Rattle.psy_meaning.specs.Alike.{ActsAlike};
ghost use Rattle.psy_meaning.specs.ListedWays.{AreWaysOf};
ghost use Rattle.psy_meaning.specs.Units.{IsOfText};
ghost use Rattle.psy_run.specs.declared.served.Served.{Served as Done};
ghost use Rattle.psy_run.specs.Answer.{judging, supplying, tracing};
ghost use Rattle.psy_run.specs.Outcome.{CanServe, Halts, TookLimit, Unfailed};
ghost use Rattle.psy_run.specs.Services.{service_of, text_of, traced_run};
ghost use Rattle.psy_run.specs.Steps.{auditing, fitting, judged_by};
ghost use Rattle.psy_run.specs.Supplies.{supply_of};

use crate::plan::plan_of;
use crate::ready::ready;
use crate::refusal::{File, Refusal, Stop};
use crate::served::Served;
use crate::steps::{compile, read};
use crate::supply::{Supplied, supply};
use crate::told::{pace, script_of};
use psy_audit::{AuditFault, Legal};
use psy_collect::{CollectFault, collect};
use psy_dates::Plan;
use psy_door::Shelf;
use psy_history::Script;
use psy_kernel::Kernel;
use psy_legal::laws::alike;
use psy_tree::Unit;
use std::alloc::Global;

// Judges a text as a trace of a plan under a script.
fn judge_by(alloc: Global, text: &Vec<u8>, plan: &Plan, script: &Script) -> Result<Legal, Stop>
    requires text { length text.now.items ≤ FILE_BYTES }
    requires plan { IsPlan plan.now }
    requires script { IsScript plan.now.unit script.now }
    ensures ok { IfOk result (λ legal. (auditing (judged_by plan.now.unit plan.now.nexts plan.now.sizes plan.now.until script.now) text.now.items).gives
        (record { acts = legal.acts; looks = legal.looks })) }
    ensures err { (failed : List ℕ) (before after : ℕ) → IfErr result
        (Halts (auditing (judged_by plan.now.unit plan.now.nexts plan.now.sizes plan.now.until script.now) text.now.items) failed before after) }
{
    match psy_audit::audit(alloc, text.as_slice(), plan, script) {
        Ok(legal) => Ok(legal),
        Err(AuditFault::Fault { number, line }) => {
            Err(Stop::Refused(Refusal::Trace { number, line }))
        }
        Err(AuditFault::Memory) => Err(Stop::Memory),
    }
}

// The same as a trace of a program that can be run up to a date, under a script of it.
fn judge_text(
    alloc: Global,
    text: &Vec<u8>,
    unit: Unit,
    supply: Supplied,
    until: u32,
    script: &Script,
) -> Result<Legal, Stop>
    requires bytes { length text.now.items ≤ FILE_BYTES }
    requires text { IsOfText unit }
    requires code { supply.code ≡ code_of unit }
    requires alike { ActsAlike unit supply.code }
    requires ways { AreWaysOf unit supply.ways }
    requires supplied { (supplying unit until).gives (supply_of supply) }
    requires script { IsScript unit script.now }
    ensures ok { IfOk result (λ legal. (auditing (judged_by unit supply.ways.nexts supply.sizes until script.now) text.now.items).gives
        (record { acts = legal.acts; looks = legal.looks })) }
    ensures err { (failed : List ℕ) (before after : ℕ) → IfErr result
        (Halts (auditing (judged_by unit supply.ways.nexts supply.sizes until script.now) text.now.items) failed before after) }
{
    let plan = plan_of(unit, supply, until);
    judge_by(alloc, text, &plan, script)
}

/// `audit PROG UNTIL TRACE [SCRIPT]`
pub fn audit<F: Shelf>(
    alloc: Global,
    shelf: &mut F,
    name: &str,
    until: u32,
    trace: &str,
    script: Option<&str>,
) -> Result<Served, Stop>
    ensures ok { IfOk result (λ served. (judging (F.files shelf.old) name.now until trace.now (option_copied script.entry)).gives (service_of served)) }
    ensures err { IfErr result (Halts (judging (F.files shelf.old) name.now until trace.now (option_copied script.entry))
        (F.failed_name shelf.new) (F.faults shelf.old) (F.faults shelf.new)) }
    ensures long { IfErr result (TookLimit (F.taken shelf.new)) }
    ensures unfailed { OnOk result (F.faults shelf.new ≡ F.faults shelf.old) }
    ensures unread { IfErr result (Unfailed (F.faults shelf.old) (F.faults shelf.new)) }
    ensures can { IfOk result CanServe }
    ensures shelf { (F.faults shelf.old ≤ F.faults shelf.new) × (F.files shelf.new ≡ F.files shelf.old) }
{
    let unit = compile(alloc, shelf, name)?;
    let supply = supply(alloc, &unit, until)?;
    let text = read(alloc, shelf, File::Trace, trace)?;
    let script = script_of(alloc, shelf, &unit, script)?;
    pace(&unit, until)?;
    let legal = judge_text(alloc, &text, unit, supply, until, &script)?;
    Ok(Served::Audited {
        acts: legal.acts,
        looks: legal.looks,
    })
}

// Runs a kernel that was just booted, and gives the trace of its run.
fn tell(alloc: Global, kernel: &mut Kernel) -> Result<Vec<u8>, Stop>
    requires can { CanServe (Done.Ran kernel.old) }
    ensures over { OnOk result (kernel.new ≡ ended kernel.old) }
    ensures told { IfOk result (λ text. text.items ≡ text_of (traced_run kernel.old)) }
    ensures fits { OnOk result (length (text_of (traced_run kernel.old)) ≤ FILE_BYTES) }
    ensures err { (failed : List ℕ) (before after : ℕ) → IfErr result (Halts (fitting (text_of (traced_run kernel.old))) failed before after) }
{
    alike();
    match collect(alloc, kernel) {
        Ok(text) => Ok(text),
        Err(CollectFault::Large) => Err(Stop::Refused(Refusal::LongTrace)),
        Err(CollectFault::Memory) => Err(Stop::Memory),
    }
}

// The same, with the kernel once it ran.
fn told(alloc: Global, mut kernel: Kernel) -> Result<Served, Stop>
    requires can { CanServe (Done.Ran kernel) }
    ensures told { IfOk result (λ served. service_of served ≡ traced_run kernel) }
    ensures can { IfOk result CanServe }
    ensures fits { OnOk result (length (text_of (traced_run kernel)) ≤ FILE_BYTES) }
    ensures err { (failed : List ℕ) (before after : ℕ) → IfErr result (Halts (fitting (text_of (traced_run kernel))) failed before after) }
{
    match tell(alloc, &mut kernel) {
        Ok(text) => Ok(Served::Traced(kernel, text)),
        Err(stop) => Err(stop),
    }
}

/// `trace PROG UNTIL [INPUTS [SCRIPT]]`
pub fn trace<F: Shelf>(
    alloc: Global,
    shelf: &mut F,
    name: &str,
    until: u32,
    inputs: Option<&str>,
    script: Option<&str>,
) -> Result<Served, Stop>
    ensures ok { IfOk result (λ served. (tracing (F.files shelf.old) name.now until (option_copied inputs.entry) (option_copied script.entry)).gives
        (service_of served)) }
    ensures err { IfErr result (Halts (tracing (F.files shelf.old) name.now until (option_copied inputs.entry) (option_copied script.entry))
        (F.failed_name shelf.new) (F.faults shelf.old) (F.faults shelf.new)) }
    ensures long { IfErr result (TookLimit (F.taken shelf.new)) }
    ensures unfailed { OnOk result (F.faults shelf.new ≡ F.faults shelf.old) }
    ensures unread { IfErr result (Unfailed (F.faults shelf.old) (F.faults shelf.new)) }
    ensures can { IfOk result CanServe }
    ensures shelf { (F.faults shelf.old ≤ F.faults shelf.new) × (F.files shelf.new ≡ F.files shelf.old) }
{
    let kernel = ready(alloc, shelf, name, until, inputs, script)?;
    told(alloc, kernel)
}
