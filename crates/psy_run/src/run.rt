//! The run of a kernel, and the text that it writes.
ghost use Rattle.std.specs.Prelude.{◌≡◌, ◌+◌, ◌-◌, ◌*◌, ◌≤◌, length, IfErr, OnOk, OnErr};
ghost use Rattle.psy_door.specs.Faults.{Rose};
ghost use Rattle.psy_kernel.specs.declared.stage.Stage.TheVariants.{Over};
ghost use Rattle.psy_kernel.specs.Progress.{began, booted, lines_told, order, stage_of, summary_told, system};
ghost use Rattle.psy_kernel.specs.Texts.{log_of, run_text, summary_of, text_of};
ghost use Rattle.psy_log.specs.Writing.{Written};
ghost use Rattle.psy_run.specs.Cuts.{IsCutAt, log_lines, run_lines};
ghost use Rattle.psy_kernel.specs.Runs.{all_given, ended};

use psy_door::Sink;
use psy_kernel::{Kernel, Stage};
use psy_log::{Line, WriteFault, write_all_of};

/// Writes the lines of the date done last, none of which was given so far. It takes no memory.
pub fn write_date<S: Sink>(kernel: &mut Kernel, out: &mut S) -> Result<(), WriteFault>
    requires none { kernel.old.given ≡ 0 }
    ensures counted { S.faults out.old ≤ S.faults out.new }
    ensures failed { OnErr result (Rose (S.faults out.old) (S.faults out.new)) }
    ensures unfailed { OnOk result (S.faults out.new ≡ S.faults out.old) }
    ensures given { OnOk result (kernel.new ≡ all_given kernel.old) }
    ensures written { Written (S.held out.old) (S.held out.new) result (text_of (lines_told kernel.old)) }
    ensures cut { IfErr result (λ fault. IsCutAt (S.held out.old) (S.held out.new) (lines_told kernel.old) fault.taken) }
{
    let mut line = Line::new();
    'lines: loop {
        if !kernel.next_line(&mut line) {
            return Ok(());
        }
        if let Err(fault) = write_all_of(out, line.bytes()) {
            return Err(fault);
        }
    }
}

// Does all dates and cycles of a kernel that was just booted or opened, and writes the lines of each date.
fn run_dates<S: Sink>(kernel: &mut Kernel, out: &mut S) -> Result<(), WriteFault>
    requires began { kernel.old ≡ began kernel.old.plan kernel.old.inputs kernel.old.script kernel.old.opening }
    ensures counted { S.faults out.old ≤ S.faults out.new }
    ensures failed { OnErr result (Rose (S.faults out.old) (S.faults out.new)) }
    ensures unfailed { OnOk result (S.faults out.new ≡ S.faults out.old) }
    ensures over { OnOk result (kernel.new ≡ ended kernel.old) }
    ensures written { Written (S.held out.old) (S.held out.new) result (log_of (system kernel.old) (kernel.old.plan.until + 1)) }
    ensures cut { IfErr result (λ fault. IsCutAt (S.held out.old) (S.held out.new)
        (log_lines (system kernel.old) (kernel.old.plan.until + 1)) fault.taken) }
{
    // No date behind the plan's last one was done.
    let _plan = kernel.plan();
    'stages: loop {
        match kernel.stage() {
            Stage::Over => return Ok(()),
            Stage::CycleDue(_) => kernel.tick(),
            // A tick ends with a whole cycle.
            Stage::UnitDue(..) => unreachable!(),
            Stage::DateDue(_) => {
                kernel.date();
                if let Err(fault) = write_date(kernel, out) {
                    return Err(fault);
                }
            }
        }
    }
}

// Takes the lines of the date done last, none of which was given so far, and writes none.
fn pass_date(kernel: &mut Kernel)
    requires { kernel.old.given ≡ 0 }
    ensures { kernel.new ≡ all_given kernel.old }
{
    let mut line = Line::new();
    'lines: while kernel.next_line(&mut line) {}
}

/// Does all dates and cycles of a kernel that was just booted, and writes none of their lines.
pub fn pass_dates(kernel: &mut Kernel)
    requires { kernel.old ≡ booted kernel.old.plan kernel.old.inputs kernel.old.script }
    ensures { kernel.new ≡ ended kernel.old }
{
    'stages: loop {
        match kernel.stage() {
            Stage::Over => return,
            Stage::CycleDue(_) => kernel.tick(),
            // A tick ends with a whole cycle.
            Stage::UnitDue(..) => unreachable!(),
            Stage::DateDue(_) => {
                kernel.date();
                pass_date(kernel);
            }
        }
    }
}

/// Writes the summary of a kernel that is over. It takes no memory.
pub fn write_summary<S: Sink>(kernel: &Kernel, out: &mut S) -> Result<(), WriteFault>
    requires over { stage_of kernel.now ≡ Over }
    ensures counted { S.faults out.old ≤ S.faults out.new }
    ensures failed { OnErr result (Rose (S.faults out.old) (S.faults out.new)) }
    ensures unfailed { OnOk result (S.faults out.new ≡ S.faults out.old) }
    ensures written { Written (S.held out.old) (S.held out.new) result (text_of (summary_told kernel.now)) }
    ensures cut { IfErr result (λ fault. IsCutAt (S.held out.old) (S.held out.new) (summary_told kernel.now) fault.taken) }
{
    let mut line = Line::new();
    let mut place = 0;
    'lines: loop {
        if !kernel.summary_line(place, &mut line) {
            return Ok(());
        }
        if let Err(fault) = write_all_of(out, line.bytes()) {
            return Err(fault);
        }
        place += 1;
    }
}

/// Runs a kernel that was just booted, or opened behind a state, to its last date, and writes its lines date by date and the summary. It takes no
/// memory.
pub fn run_loop<S: Sink>(kernel: &mut Kernel, out: &mut S) -> Result<(), WriteFault>
    requires began { kernel.old ≡ began kernel.old.plan kernel.old.inputs kernel.old.script kernel.old.opening }
    ensures counted { S.faults out.old ≤ S.faults out.new }
    ensures failed { OnErr result (Rose (S.faults out.old) (S.faults out.new)) }
    ensures unfailed { OnOk result (S.faults out.new ≡ S.faults out.old) }
    ensures over { OnOk result (kernel.new ≡ ended kernel.old) }
    ensures written { Written (S.held out.old) (S.held out.new) result
        (run_text (system kernel.old) (order kernel.old) kernel.old.plan.sizes kernel.old.plan.until) }
    ensures cut { IfErr result (λ fault. IsCutAt (S.held out.old) (S.held out.new)
        (run_lines (system kernel.old) (order kernel.old) kernel.old.plan.sizes kernel.old.plan.until) fault.taken) }
{
    if let Err(fault) = run_dates(kernel, out) {
        return Err(fault);
    }
    write_summary(kernel, out)
}

/// Runs a kernel that was just booted to its last date, and writes the summary alone. It takes no memory.
pub fn trial_loop<S: Sink>(kernel: &mut Kernel, out: &mut S) -> Result<(), WriteFault>
    requires booted { kernel.old ≡ booted kernel.old.plan kernel.old.inputs kernel.old.script }
    ensures counted { S.faults out.old ≤ S.faults out.new }
    ensures failed { OnErr result (Rose (S.faults out.old) (S.faults out.new)) }
    ensures unfailed { OnOk result (S.faults out.new ≡ S.faults out.old) }
    ensures over { OnOk result (kernel.new ≡ ended kernel.old) }
    ensures written { Written (S.held out.old) (S.held out.new) result
        (text_of (summary_of (system kernel.old) (order kernel.old) kernel.old.plan.sizes kernel.old.plan.until)) }
    ensures cut { IfErr result (λ fault. IsCutAt (S.held out.old) (S.held out.new)
        (summary_of (system kernel.old) (order kernel.old) kernel.old.plan.sizes kernel.old.plan.until) fault.taken) }
{
    pass_dates(kernel);
    write_summary(kernel, out)
}
