//! The commands: each is its list of steps.
ghost use Rattle.std.specs.Prelude.{◌≡◌, ◌≤◌, ℕ, List, map, string_bytes, IfOk, IfErr, OnOk, option_copied};
ghost use Rattle.psy_run.specs.Answer.{running, checking, drawing, making, trying, answering};
ghost use Rattle.psy_run.specs.Asked.{Command as Asked, Asks};
ghost use Rattle.psy_run.specs.Outcome.{CanServe, Halts, TookLimit, Unfailed};
ghost use Rattle.psy_run.specs.Services.{service_of};

use crate::asked::{Command, read_words};
use crate::costs::all_costs;
use crate::image_commands::{build, exec};
use crate::ready::{boot, ready};
use crate::refusal::{Refusal, Stop};
use crate::served::Served;
use crate::state_commands::{resume, save};
use crate::steps::{compile, translate};
use crate::supply::{graphs, supply};
use crate::told::{nothing_said, pace};
use crate::trace_commands::{audit, trace};
use psy_door::Shelf;
use psy_history::no_lists;
use psy_make::laws::short;
use psy_make::make;
use psy_plan::with_ways;
use std::alloc::Global;

// `run PROG UNTIL [INPUTS [SCRIPT]]`
fn run<F: Shelf>(
    alloc: Global,
    shelf: &mut F,
    name: &str,
    until: u32,
    inputs: Option<&str>,
    script: Option<&str>,
) -> Result<Served, Stop>
    ensures ok { IfOk result (λ served. (running (F.files shelf.old) name.now until (option_copied inputs.entry) (option_copied script.entry)).gives
        (service_of served)) }
    ensures err { IfErr result (Halts (running (F.files shelf.old) name.now until (option_copied inputs.entry) (option_copied script.entry))
        (F.failed_name shelf.new) (F.faults shelf.old) (F.faults shelf.new)) }
    ensures long { IfErr result (TookLimit (F.taken shelf.new)) }
    ensures unfailed { OnOk result (F.faults shelf.new ≡ F.faults shelf.old) }
    ensures unread { IfErr result (Unfailed (F.faults shelf.old) (F.faults shelf.new)) }
    ensures can { IfOk result CanServe }
    ensures shelf { (F.faults shelf.old ≤ F.faults shelf.new) × (F.files shelf.new ≡ F.files shelf.old) }
{
    match ready(alloc, shelf, name, until, inputs, script) {
        Ok(kernel) => Ok(Served::Ran(kernel)),
        Err(stop) => Err(stop),
    }
}

// `check PROG UNTIL`
fn check<F: Shelf>(alloc: Global, shelf: &mut F, name: &str, until: u32) -> Result<Served, Stop>
    ensures ok { IfOk result (λ served. (checking (F.files shelf.old) name.now until).gives (service_of served)) }
    ensures err { IfErr result (Halts (checking (F.files shelf.old) name.now until) (F.failed_name shelf.new) (F.faults shelf.old) (F.faults shelf.new)) }
    ensures long { IfErr result (TookLimit (F.taken shelf.new)) }
    ensures unfailed { OnOk result (F.faults shelf.new ≡ F.faults shelf.old) }
    ensures unread { IfErr result (Unfailed (F.faults shelf.old) (F.faults shelf.new)) }
    ensures can { IfOk result CanServe }
    ensures shelf { (F.faults shelf.old ≤ F.faults shelf.new) × (F.files shelf.new ≡ F.files shelf.old) }
{
    let unit = compile(alloc, shelf, name)?;
    let supply = supply(alloc, &unit, until)?;
    Ok(Served::Checked {
        unit,
        sizes: supply.sizes,
        lines: supply.lines,
        extent: supply.extent,
    })
}

// `graph PROG`
fn draw<F: Shelf>(alloc: Global, shelf: &mut F, name: &str) -> Result<Served, Stop>
    ensures ok { IfOk result (λ served. (drawing (F.files shelf.old) name.now).gives (service_of served)) }
    ensures err { IfErr result (Halts (drawing (F.files shelf.old) name.now) (F.failed_name shelf.new) (F.faults shelf.old) (F.faults shelf.new)) }
    ensures long { IfErr result (TookLimit (F.taken shelf.new)) }
    ensures unfailed { OnOk result (F.faults shelf.new ≡ F.faults shelf.old) }
    ensures unread { IfErr result (Unfailed (F.faults shelf.old) (F.faults shelf.new)) }
    ensures can { IfOk result CanServe }
    ensures shelf { (F.faults shelf.old ≤ F.faults shelf.new) × (F.files shelf.new ≡ F.files shelf.old) }
{
    let unit = compile(alloc, shelf, name)?;
    let coded = with_ways(alloc, &unit)?;
    let graphs = graphs(alloc, &unit, &coded.ways)?;
    let costs = all_costs(alloc, &unit)?;
    Ok(Served::Drawn {
        unit,
        graphs,
        costs,
    })
}

// `make SEED`
fn write_made(alloc: Global, seed: u32) -> Result<Served, Stop>
    ensures ok { IfOk result (λ served. (making seed).gives (service_of served)) }
    ensures err { (failed : List ℕ) (before after : ℕ) → IfErr result (Halts (making seed) failed before after) }
    ensures can { IfOk result CanServe }
{
    Ok(Served::Made(make(alloc, seed)?))
}

// `trial SEED UNTIL`
fn try_made(alloc: Global, seed: u32, until: u32) -> Result<Served, Stop>
    ensures ok { IfOk result (λ served. (trying seed until).gives (service_of served)) }
    ensures err { (failed : List ℕ) (before after : ℕ) → IfErr result (Halts (trying seed until) failed before after) }
    ensures can { IfOk result CanServe }
{
    short();
    let text = make(alloc, seed)?;
    let unit = translate(alloc, &text)?;
    let supply = supply(alloc, &unit, until)?;
    pace(&unit, until)?;
    let inputs = no_lists(alloc, &unit)?;
    match boot(alloc, unit, supply, until, inputs, nothing_said(alloc)) {
        Ok(kernel) => Ok(Served::Tried(kernel)),
        Err(_) => Err(Stop::Memory),
    }
}

/// What the words come to, before anything is written.
pub fn judge<F: Shelf>(alloc: Global, words: &[String], shelf: &mut F) -> Result<Served, Stop>
    ensures ok { IfOk result (λ served. (answering (map string_bytes words.now) (F.files shelf.old)).gives (service_of served)) }
    ensures err { IfErr result (Halts (answering (map string_bytes words.now) (F.files shelf.old)) (F.failed_name shelf.new) (F.faults shelf.old)
        (F.faults shelf.new)) }
    ensures long { IfErr result (TookLimit (F.taken shelf.new)) }
    ensures unfailed { OnOk result (F.faults shelf.new ≡ F.faults shelf.old) }
    ensures unread { IfErr result (Unfailed (F.faults shelf.old) (F.faults shelf.new)) }
    ensures can { IfOk result CanServe }
    ensures asked { IfErr result (λ stop. stop ≡ Stop.Memory → (command : Asked) × Asks (map string_bytes words.now) command) }
    ensures shelf { (F.faults shelf.old ≤ F.faults shelf.new) × (F.files shelf.new ≡ F.files shelf.old) }
{
    match read_words(words) {
        None => Err(Stop::Refused(Refusal::Words)),
        Some(
            Command::Run {
                program,
                until,
                inputs,
                script,
            },
        ) => run(alloc, shelf, program, until, inputs, script),
        Some(Command::Check { program, until }) => check(alloc, shelf, program, until),
        Some(Command::Graph { program }) => draw(alloc, shelf, program),
        Some(Command::Make { seed }) => write_made(alloc, seed),
        Some(Command::Trial { seed, until }) => try_made(alloc, seed, until),
        Some(Command::Build { program }) => build(alloc, shelf, program),
        Some(
            Command::Exec {
                image,
                until,
                inputs,
                script,
            },
        ) => exec(alloc, shelf, image, until, inputs, script),
        Some(
            Command::Audit {
                program,
                until,
                trace,
                script,
            },
        ) => audit(alloc, shelf, program, until, trace, script),
        Some(
            Command::Trace {
                program,
                until,
                inputs,
                script,
            },
        ) => trace(alloc, shelf, program, until, inputs, script),
        Some(
            Command::Save {
                program,
                date,
                inputs,
                script,
            },
        ) => save(alloc, shelf, program, date, inputs, script),
        Some(
            Command::Resume {
                program,
                state,
                until,
                inputs,
                script,
            },
        ) => resume(alloc, shelf, program, state, until, inputs, script),
    }
}
