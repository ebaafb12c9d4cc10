//! Kernels for whoever steps them by their own means.
ghost use Rattle.std.specs.Prelude.{◌≡◌, ◌≢◌, ◌⊎◌, ℕ, ◌≤◌, List, length, map, string_bytes, None, IfErr, IfOk, IfSome, OnOk};
ghost use Rattle.std.specs.Result.{IsErrOf};
ghost use Rattle.psy_base.specs.declared.limits.TheConstants.{FILE_BYTES};
ghost use Rattle.psy_history.specs.Compiled.{AreInputs};
ghost use Rattle.psy_history.specs.Scripts.{IsScript};
ghost use Rattle.psy_kernel.specs.Progress.{Progress, booted, order, system};
ghost use Rattle.psy_kernel.specs.Texts.{run_text};
ghost use Rattle.psy_run.specs.declared.refusal.File.{File as Role};
ghost use Rattle.psy_run.specs.declared.refusal.Refusal.{Refusal as Cause};
ghost use Rattle.psy_run.specs.declared.served.Served.{Served as Done};
ghost use Rattle.psy_run.specs.Answer.{answering, planning, translating};
ghost use Rattle.psy_run.specs.Asked.{Command, Asks};
ghost use Rattle.psy_run.specs.Outcome.{Halts, TookLimit, Unfailed};
ghost use Rattle.psy_run.specs.Planned.{IsPlanned};
ghost use Rattle.psy_run.specs.Services.{Ran, no_inputs, no_script, planned_run, service_of, text_of};

use crate::commands::judge;
use crate::laws::one_answer;
use crate::ready::boot;
use crate::refusal::Stop;
use crate::served::Served;
use crate::steps::translate;
use crate::supply::supply;
use crate::told::nothing_said;
use psy_door::Shelf;
use psy_history::laws::alike;
use psy_history::no_lists;
use psy_kernel::Kernel;
use std::alloc::Global;

// A kernel of the program of a text that was just booted, to be run up to a date without inputs and script.
fn boot_text(alloc: Global, text: &Vec<u8>, until: u32) -> Result<Kernel, Stop>
    requires { length text.now.items ≤ FILE_BYTES }
    ensures booted { IfOk result (λ kernel. kernel ≡ booted kernel.plan kernel.inputs kernel.script) }
    ensures alone { IfOk result (λ kernel. kernel.inputs ≡ no_inputs kernel.plan.unit) }
    ensures unscripted { IfOk result (λ kernel. kernel.script ≡ no_script) }
    ensures program { IfOk result (λ kernel. (translating text.now.items).gives kernel.plan.unit) }
    ensures its_until { IfOk result (λ kernel. kernel.plan.until ≡ until) }
    ensures planned { IfOk result (λ kernel. IsPlanned kernel.plan) }
    ensures given { IfOk result (λ kernel. (planning text.now.items until).gives (planned_run kernel.plan)) }
    ensures err { (failed : List ℕ) (before after : ℕ) → IfErr result (Halts (planning text.now.items until) failed before after) }
{
    let unit = translate(alloc, text)?;
    let supply = supply(alloc, &unit, until)?;
    let inputs = no_lists(alloc, &unit)?;
    match boot(alloc, unit, supply, until, inputs, nothing_said(alloc)) {
        Ok(kernel) => Ok(kernel),
        Err(_) => Err(Stop::Memory),
    }
}

/// A kernel of the program of a text that was just booted, to be run up to a date without inputs and script, however many cycles that is. It is
/// refused exactly where a step of the plan refuses: the text, or what its buffers and processors would need. The only other error is want of
/// memory; no file is read.
pub fn kernel_of(alloc: Global, text: &Vec<u8>, until: u32) -> Result<Kernel, Stop>
    requires { length text.now.items ≤ FILE_BYTES }
    ensures booted { IfOk result (λ kernel. kernel ≡ booted kernel.plan kernel.inputs kernel.script) }
    ensures alone { IfOk result (λ kernel. kernel.inputs ≡ no_inputs kernel.plan.unit) }
    ensures unscripted { IfOk result (λ kernel. kernel.script ≡ no_script) }
    ensures program { IfOk result (λ kernel. (translating text.now.items).gives kernel.plan.unit) }
    ensures its_until { IfOk result (λ kernel. kernel.plan.until ≡ until) }
    ensures planned { IfOk result (λ kernel. IsPlanned kernel.plan) }
    ensures given { IfOk result (λ kernel. (planning text.now.items until).gives (planned_run kernel.plan)) }

    // What its run writes is the dated meaning of the program's statements.
    ensures meant { IfOk result (λ kernel. run_text (system kernel) (order kernel) kernel.plan.sizes kernel.plan.until
        ≡ text_of (Ran kernel.plan.unit kernel.plan.nexts kernel.plan.sizes kernel.plan.until (no_inputs kernel.plan.unit) no_script)) }

    // Why there is none
    ensures refused { (refusal : Cause) → IsErrOf result (Stop.Refused refusal) → (planning text.now.items until).stops refusal }
    ensures exactly { (refusal : Cause) → (planning text.now.items until).stops refusal
        → IsErrOf result (Stop.Refused refusal) ⊎ IsErrOf result Stop.Memory }
    ensures unread { (file : Role) → IsErrOf result (Stop.Unread file) → ⊥ }
{
    one_answer();
    alike();
    boot_text(alloc, text, until)
}

// No kernel: this one is none of a run.
fn none_of(_kernel: Kernel) -> Option<Kernel>
    ensures { result ≡ None }
{
    None
}

// The kernel of a run; none of another command. Each part is let go by itself, since a proof that lets go of a whole `Served` is long.
fn of_run(served: Served) -> Option<Kernel>
    ensures ran { IfSome result (λ kernel. served ≡ Done.Ran kernel) }
    ensures other { result ≡ None → (kernel : Progress) → served ≢ Done.Ran kernel }
{
    match served {
        Served::Ran(kernel) => Some(kernel),
        Served::Tried(kernel) => none_of(kernel),
        Served::Executed(kernel) => none_of(kernel),
        Served::Traced(kernel, _text) => none_of(kernel),
        Served::Saved(kernel, _bytes) => none_of(kernel),
        Served::Resumed(kernel) => none_of(kernel),
        Served::Checked {
            unit: _unit,
            sizes: _sizes,
            lines: _lines,
            extent: _extent,
        } => None,
        Served::Drawn {
            unit: _unit,
            graphs: _graphs,
            costs: _costs,
        } => None,
        Served::Made(_text) => None,
        Served::Built(_image) => None,
        Served::Audited { .. } => None,
    }
}

/// The kernel that the words of a `run` ask for, just booted, for whoever steps it by their own means; none where they ask for another command.
/// It is refused, and files are read, as by the command.
pub fn kernel_asked<F: Shelf>(
    alloc: Global,
    words: &[String],
    shelf: &mut F,
) -> Result<Option<Kernel>, Stop>
    ensures booted { IfOk result (λ asked. IfSome asked (λ kernel. kernel ≡ booted kernel.plan kernel.inputs kernel.script)) }
    ensures planned { IfOk result (λ asked. IfSome asked (λ kernel. IsPlanned kernel.plan)) }
    ensures its_inputs { IfOk result (λ asked. IfSome asked (λ kernel. AreInputs kernel.plan.unit kernel.inputs)) }
    ensures its_script { IfOk result (λ asked. IfSome asked (λ kernel. IsScript kernel.plan.unit kernel.script)) }
    ensures given { IfOk result (λ asked. IfSome asked (λ kernel. (answering (map string_bytes words.now) (F.files shelf.old)).gives
        (service_of (Done.Ran kernel)))) }
    ensures other { IfOk result (λ asked. asked ≡ None → (done : Done) × ((kernel : Progress) → done ≢ Done.Ran kernel)
        × (answering (map string_bytes words.now) (F.files shelf.old)).gives (service_of done)) }

    // Why there is none
    ensures err { IfErr result (Halts (answering (map string_bytes words.now) (F.files shelf.old)) (F.failed_name shelf.new) (F.faults shelf.old)
        (F.faults shelf.new)) }
    ensures long { IfErr result (TookLimit (F.taken shelf.new)) }
    ensures unfailed { OnOk result (F.faults shelf.new ≡ F.faults shelf.old) }
    ensures unread { IfErr result (Unfailed (F.faults shelf.old) (F.faults shelf.new)) }
    ensures memory { IfErr result (λ stop. stop ≡ Stop.Memory → (command : Command) × Asks (map string_bytes words.now) command) }
    ensures shelf { (F.faults shelf.old ≤ F.faults shelf.new) × (F.files shelf.new ≡ F.files shelf.old) }
{
    match judge(alloc, words, shelf) {
        Ok(served) => Ok(of_run(served)),
        Err(stop) => Err(stop),
    }
}
