//! A run of a kernel, and the trace of what it did.
ghost use Rattle.std.specs.Prelude.{◌≡◌, ◌^◌, ◌<◌, ◌≤◌, Err, IfOk, Ok, OnErr, OnOk, false, length, true};
ghost use Rattle.psy_audit.specs.Spelled.{trace_text};
ghost use Rattle.psy_base.specs.declared.limits.TheConstants.{FILE_BYTES};
ghost use Rattle.psy_collect.specs.Collected.{IsLastDue, IsRunning, IsSameRun, steps_left};
ghost use Rattle.psy_collect.specs.Keeping.{kept_text};
ghost use Rattle.psy_collect.specs.declared.fault.CollectFault.TheVariants.{Large};
ghost use Rattle.psy_kernel.specs.declared.stage.Stage.TheVariants.{DateDue};
ghost use Rattle.psy_kernel.specs.Progress.{after_date, booted, order, stage_of, system};
ghost use Rattle.psy_kernel.specs.Runs.{all_given, ended};

use crate::cycles::keep_cycle;
use crate::dates::{keep_overs, keep_publications, keep_starts};
use crate::ends::{end_acts, end_segments};
use crate::fault::CollectFault;
use crate::kept::Kept;
use crate::text::text_of;
use crate::units::keep_unit;
use psy_base::Memory;
use psy_base::limits::FILE_BYTES;
use psy_dates::Plan;
use psy_history::laws::{fitting, given, on_time, regular, rings};
use psy_history::processors_of;
use psy_kernel::{Kernel, Stage};
use psy_log::Line;
use std::alloc::Global;

/// Runs a kernel that was just booted to its last date, and gives the trace of what it did, at most 262,144 bytes. A refusal leaves the kernel
/// after its last step.
pub fn collect(alloc: Global, kernel: &mut Kernel) -> Result<Vec<u8>, CollectFault>
    requires booted { kernel.old ≡ booted kernel.old.plan kernel.old.inputs kernel.old.script }
    ensures text { IfOk result (λ text. text.items
        ≡ trace_text (system kernel.old) (order kernel.old) kernel.old.plan.sizes kernel.old.plan.until) }
    ensures few { IfOk result (λ text. length text.items ≤ FILE_BYTES) }
    ensures large { result ≡ Err Large
        → FILE_BYTES < length (trace_text (system kernel.old) (order kernel.old) kernel.old.plan.sizes kernel.old.plan.until) }
    ensures over { OnOk result (kernel.new ≡ ended kernel.old) }

    // A refusal leaves it in the same run.
    ensures refused { OnErr result ((kernel.new.plan ≡ kernel.old.plan) × (kernel.new.inputs ≡ kernel.old.inputs)
        × (kernel.new.script ≡ kernel.old.script)) }
{
    let mut kept = Kept::new(alloc, &kernel.plan().unit)?;
    keep_dates(kernel, &mut kept)?;
    keep_last(kernel, &mut kept)?;
    let plan = kernel.plan();
    let text = text_of(alloc, &plan.unit, &kept, u64::from(plan.until))?;
    within(text)
}

// The text, where it isn't too long.
fn within(text: Vec<u8>) -> Result<Vec<u8>, CollectFault>
    ensures text { IfOk result (λ it. it.items ≡ text.items) }
    ensures few { IfOk result (λ it. length it.items ≤ FILE_BYTES) }
    ensures large { result ≡ Err Large → FILE_BYTES < length text.items }
{
    if text.len() > FILE_BYTES {
        return Err(CollectFault::Large);
    }
    Ok(text)
}

/// The last date of a plan.
pub fn until_of(plan: &Plan) -> u64
    ensures value { result ≡ plan.now.until }
    ensures few { result < 2 ^ 32 }
{
    u64::from(plan.until)
}

// Does all dates before the last one and all cycles, and keeps what they were.
fn keep_dates(kernel: &mut Kernel, kept: &mut Kept) -> Result<(), CollectFault>
    requires running { IsRunning kernel.old kept.old }
    ensures same { IsSameRun kernel.old kernel.new }
    ensures running { OnOk result (IsRunning kernel.new kept.new) }
    ensures last { OnOk result (IsLastDue kernel.new) }
    ensures large { result ≡ Err Large
        → FILE_BYTES < length (trace_text (system kernel.old) (order kernel.old) kernel.old.plan.sizes kernel.old.plan.until) }
{
    fitting();
    regular();
    let _plan = kernel.plan();
    'steps: loop {
        if keep_step(kernel, kept)? {
            return Ok(());
        }
        if kept.is_large() {
            return Err(CollectFault::Large);
        }
    }
}

// Does the step that is due, and keeps what it was, unless the last date is due: then it tells so.
fn keep_step(kernel: &mut Kernel, kept: &mut Kept) -> Result<bool, Memory>
    requires running { IsRunning kernel.old kept.old }
    ensures same { IsSameRun kernel.old kernel.new }
    ensures running { OnOk result (IsRunning kernel.new kept.new) }
    ensures last { result ≡ Ok true → IsLastDue kernel.new }
    ensures goes { result ≡ Ok false → steps_left kernel.new < steps_left kernel.old }
{
    match kernel.stage() {
        Stage::Over => unreachable!(),
        Stage::CycleDue(cycle) => {
            keep_cycle(kernel, kept, cycle)?;
            Ok(false)
        }
        Stage::UnitDue(cycle, _) => {
            keep_unit(kernel, kept, cycle)?;
            Ok(false)
        }
        Stage::DateDue(date) => {
            if date == u64::from(kernel.plan().until) {
                return Ok(true);
            }
            keep_date(kernel, kept, date)?;
            Ok(false)
        }
    }
}

// Takes the lines of the date done last, none of which was given so far, and does nothing with them.
fn pass_lines(kernel: &mut Kernel)
    requires { kernel.old.given ≡ 0 }
    ensures { kernel.new ≡ all_given kernel.old }
{
    let mut line = Line::new();
    'lines: while kernel.next_line(&mut line) {}
}

// Does the date that is due, and keeps what it was.
fn keep_date(kernel: &mut Kernel, kept: &mut Kept, date: u64) -> Result<(), Memory>
    requires due { stage_of kernel.old ≡ DateDue date }
    requires early { date < kernel.old.plan.until }
    requires running { IsRunning kernel.old kept.old }
    ensures state { kernel.new ≡ all_given (after_date kernel.old) }
    ensures running { OnOk result (IsRunning kernel.new kept.new) }
{
    fitting();
    regular();
    on_time();
    given();
    rings();
    let _until = until_of(kernel.plan());
    kernel.date();
    pass_lines(kernel);
    let plan = kernel.plan();
    let shared = kernel.shared();
    keep_publications(&mut kept.publications, plan, shared, date)?;
    keep_overs(&mut kept.acts, &kept.doing, shared.seats.as_slice(), date)?;
    keep_starts(&mut kept.doing, shared.seats.as_slice(), date);
    Ok(())
}

// Keeps how the last actions ended, does the last date, and keeps what is published there.
fn keep_last(kernel: &mut Kernel, kept: &mut Kept) -> Result<(), Memory>
    requires running { IsRunning kernel.old kept.old }
    requires last { IsLastDue kernel.old }
    ensures same { IsSameRun kernel.old kernel.new }
    ensures state { OnOk result (kernel.new ≡ all_given (after_date kernel.old)) }
    ensures text { OnOk result (kept_text kernel.old.plan.unit kernel.old.plan.until kept.new
        ≡ trace_text (system kernel.old) (order kernel.old) kernel.old.plan.sizes kernel.old.plan.until) }
{
    fitting();
    regular();
    on_time();
    rings();
    let _until = until_of(kernel.plan());
    end_acts(
        &mut kept.acts,
        &kept.doing,
        kernel.shared().seats.as_slice(),
    )?;
    end_segments(
        &mut kept.segments,
        &kept.serving,
        processors_of(&kernel.plan().unit),
    )?;
    kernel.date();
    pass_lines(kernel);
    let plan = kernel.plan();
    keep_publications(
        &mut kept.publications,
        plan,
        kernel.shared(),
        u64::from(plan.until),
    )?;
    Ok(())
}
