//! The steps on what a run is told: its inputs, its script, and how many cycles it may have.
ghost use Rattle.std.specs.Prelude.{ℕ, ◌≡◌, ◌≤◌, List, IfOk, IfErr, OnOk, option_copied};
ghost use Rattle.psy_history.specs.Compiled.{AreInputs};
ghost use Rattle.psy_history.specs.Scripts.{IsScript};
ghost use Rattle.psy_meaning.specs.Units.{IsBare};
ghost use Rattle.psy_run.specs.Answer.{listing, scripting};
ghost use Rattle.psy_run.specs.Outcome.{Halts, TookLimit, Unfailed};
ghost use Rattle.psy_run.specs.Refusals.{stop_by};
ghost use Rattle.psy_run.specs.Services.{no_inputs, no_script};
ghost use Rattle.psy_run.specs.Steps.{stating, directing, pacing};

use crate::refusal::{File, Refusal, Stop};
use crate::steps::read;
use psy_base::{Items, Memory, limits};
use psy_door::Shelf;
use psy_history::{Inputs, Script, no_lists};
use psy_script::{TextFault, read_inputs, read_script};
use psy_tree::Unit;
use std::alloc::Global;

/// No stalls, no orders and no rounds.
pub fn nothing_said(alloc: Global) -> Script
    ensures { result ≡ no_script }
{
    Script {
        stalls: Items::new(alloc),
        orders: Items::new(alloc),
        rounds: Items::new(alloc),
    }
}

// Why the text of a file isn't accepted.
fn refused(file: File, fault: TextFault) -> Stop
    ensures { result ≡ stop_by file fault }
{
    match fault {
        TextFault::Line { kind, line } => Stop::Refused(Refusal::Line { file, kind, line }),
        TextFault::Lines => Stop::Refused(Refusal::Lines),
        TextFault::Memory => Stop::Memory,
    }
}

// The lists that the text of an inputs file states.
fn state(alloc: Global, unit: &Unit, bytes: &Vec<u8>) -> Result<Inputs, Stop>
    requires { IsBare unit.now }
    ensures ok { IfOk result (λ inputs. (stating unit.now bytes.now.items).gives inputs.lists) }
    ensures inputs { IfOk result (λ inputs. AreInputs unit.now inputs.lists) }
    ensures err { (failed : List ℕ) (before after : ℕ) → IfErr result (Halts (stating unit.now bytes.now.items) failed before after) }
{
    match read_inputs(alloc, bytes.as_slice(), unit) {
        Ok(inputs) => Ok(inputs),
        Err(fault) => Err(refused(File::Inputs, fault)),
    }
}

// The script that the text of a script file states.
fn direct(alloc: Global, unit: &Unit, bytes: &Vec<u8>) -> Result<Script, Stop>
    requires { IsBare unit.now }
    ensures ok { IfOk result (λ script. (directing unit.now bytes.now.items).gives script) }
    ensures script { IfOk result (IsScript unit.now) }
    ensures err { (failed : List ℕ) (before after : ℕ) → IfErr result (Halts (directing unit.now bytes.now.items) failed before after) }
{
    match read_script(alloc, bytes.as_slice(), unit) {
        Ok(script) => Ok(script),
        Err(fault) => Err(refused(File::Script, fault)),
    }
}

/// The inputs of a run, from the file with this name; without one no input has a list.
pub fn inputs_of<F: Shelf>(
    alloc: Global,
    shelf: &mut F,
    unit: &Unit,
    name: Option<&str>,
) -> Result<Inputs, Stop>
    requires bare { IsBare unit.now }
    ensures ok { IfOk result (λ inputs. (listing (F.files shelf.old) unit.now (option_copied name.entry)).gives inputs.lists) }
    ensures inputs { IfOk result (λ inputs. AreInputs unit.now inputs.lists) }
    ensures err { IfErr result (Halts (listing (F.files shelf.old) unit.now (option_copied name.entry)) (F.failed_name shelf.new) (F.faults shelf.old)
        (F.faults shelf.new)) }
    ensures long { IfErr result (TookLimit (F.taken shelf.new)) }
    ensures unfailed { OnOk result (F.faults shelf.new ≡ F.faults shelf.old) }
    ensures unread { IfErr result (Unfailed (F.faults shelf.old) (F.faults shelf.new)) }
    ensures shelf { (F.faults shelf.old ≤ F.faults shelf.new) × (F.files shelf.new ≡ F.files shelf.old) }
{
    let Some(name) = name else {
        return Ok(no_lists(alloc, unit)?);
    };
    let bytes = read(alloc, shelf, File::Inputs, name)?;
    state(alloc, unit, &bytes)
}

/// The script of a run, from the file with this name; without one there are no stalls, no orders and no rounds.
pub fn script_of<F: Shelf>(
    alloc: Global,
    shelf: &mut F,
    unit: &Unit,
    name: Option<&str>,
) -> Result<Script, Stop>
    requires bare { IsBare unit.now }
    ensures ok { IfOk result (λ script. (scripting (F.files shelf.old) unit.now (option_copied name.entry)).gives script) }
    ensures script { IfOk result (IsScript unit.now) }
    ensures err { IfErr result (Halts (scripting (F.files shelf.old) unit.now (option_copied name.entry)) (F.failed_name shelf.new) (F.faults shelf.old)
        (F.faults shelf.new)) }
    ensures long { IfErr result (TookLimit (F.taken shelf.new)) }
    ensures unfailed { OnOk result (F.faults shelf.new ≡ F.faults shelf.old) }
    ensures unread { IfErr result (Unfailed (F.faults shelf.old) (F.faults shelf.new)) }
    ensures shelf { (F.faults shelf.old ≤ F.faults shelf.new) × (F.files shelf.new ≡ F.files shelf.old) }
{
    let Some(name) = name else {
        return Ok(nothing_said(alloc));
    };
    let bytes = read(alloc, shelf, File::Script, name)?;
    direct(alloc, unit, &bytes)
}

/// Whether a run up to a date has no more cycles than a run may have.
pub fn pace(unit: &Unit, until: u32) -> Result<(), Stop>
    ensures ok { IfOk result (λ done. (pacing unit.now until).gives done) }
    ensures err { (failed : List ℕ) (before after : ℕ) → IfErr result (Halts (pacing unit.now until) failed before after) }
{
    if u64::from(until) * u64::from(unit.quantum) <= limits::RUN {
        Ok(())
    } else {
        Err(Stop::Refused(Refusal::Cycles))
    }
}
