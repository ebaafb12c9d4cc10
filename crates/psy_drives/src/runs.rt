//! The text of a run, by the loop of psyc and by each drive.
ghost use Rattle.std.specs.Prelude.{◌≡◌, length, IfSome};
ghost use Rattle.psy_kernel.specs.declared.stage.Stage.TheVariants.{Over};
ghost use Rattle.psy_kernel.specs.Progress.{booted, lines_told, stage_of};

use crate::drive::Drive;
use psy_door::{Shelf, Sink, SinkVec};
use psy_kernel::{Kernel, Stage};
use psy_run::{kernel_asked, run_loop, write_date, write_summary};
use std::alloc::Global;

/// How many bytes a text may have.
const ROOM: usize = 65_536;

/// How many steps a run may take: the units, cycles and dates of the longest run here are fewer.
const STEPS: u32 = 1_000_000;

// Does what is due, the cycles by a drive, and writes the lines of each date, until the run is over. None where a write failed, or more steps
// were needed.
fn write_dates<S: Sink>(kernel: &mut Kernel, drive: Drive, out: &mut S) -> Option<()>
    requires given { kernel.old.given ≡ length (lines_told kernel.old) }
    ensures over { IfSome result (λ done. stage_of kernel.new ≡ Over) }
{
    'steps: for _ in 0..STEPS {
        match kernel.stage() {
            Stage::Over => return Some(()),
            Stage::CycleDue(_) => drive.step(kernel),
            Stage::UnitDue(..) => kernel.unit(),
            Stage::DateDue(_) => {
                kernel.date();
                if write_date(kernel, out).is_err() {
                    return None;
                }
            }
        }
    }
    None
}

// Writes all that a run by a drive has to say. None where a write failed, or more steps were needed.
fn write_run<S: Sink>(kernel: &mut Kernel, drive: Drive, out: &mut S) -> Option<()>
    requires booted { kernel.old ≡ booted kernel.old.plan kernel.old.inputs kernel.old.script }
{
    write_dates(kernel, drive, out)?;
    write_summary(kernel, out).ok()
}

/// The text of a run: by a drive, or by the loop of psyc where none is told. None where it couldn't be written.
pub fn text_of(alloc: Global, kernel: &mut Kernel, drive: Option<Drive>) -> Option<SinkVec>
    requires booted { kernel.old ≡ booted kernel.old.plan kernel.old.inputs kernel.old.script }
{
    let mut out = SinkVec::new(alloc, ROOM, ROOM, Vec::new(alloc)).ok()?;
    match drive {
        Some(drive) => write_run(kernel, drive, &mut out)?,
        None => run_loop(kernel, &mut out).ok()?,
    }
    Some(out)
}

/// The text of the run that the words ask for: by a drive, or by the loop of psyc where none is told. None where they ask for no run, or it
/// couldn't be written.
pub fn text_asked<F: Shelf>(
    alloc: Global,
    words: &[String],
    shelf: &mut F,
    drive: Option<Drive>,
) -> Option<SinkVec> {
    match kernel_asked(alloc, words, shelf) {
        Ok(Some(mut kernel)) => text_of(alloc, &mut kernel, drive),
        Ok(None) | Err(_) => None,
    }
}
