//! The units of a run, one by one: who got each, and what it looked at.
ghost use Rattle.std.specs.Prelude.{◌≡◌, length};
ghost use Rattle.psy_kernel.specs.Progress.{lines_told};

use psy_door::{Shelf, Sink};
use psy_kernel::{Kernel, Seen, Stage};
use psy_log::write_all_of;
use psy_run::{kernel_asked, write_date};
use std::alloc::Global;

/// How many steps a run may take that is told so.
const STEPS: u32 = 10_000;

// Tells who got the unit of a cycle, and what it looked at.
fn tell<S: Sink>(
    alloc: Global,
    cycle: u64,
    ran: Option<u32>,
    seen: Option<Seen>,
    out: &mut S,
) -> Option<()> {
    let line = match (ran, seen) {
        (None, _) => format!(in alloc; "{cycle} idle\n").ok()?,
        (Some(agent), None) => format!(in alloc; "{cycle} agent {agent}\n").ok()?,
        (Some(agent), Some(look)) => format!(in alloc;
            "{cycle} agent {agent} variable {} back {} slot {} value {}\n",
            look.variable, look.back, look.slot, look.value
        )
        .ok()?,
    };
    write_all_of(out, line.as_bytes()).ok()
}

// Does the dates and the units of a run, and tells of each unit that goes to another than the one before or that looks at something. None where
// that couldn't be written, or more steps were needed.
fn tell_steps<S: Sink>(alloc: Global, kernel: &mut Kernel, out: &mut S) -> Option<()>
    requires given { kernel.old.given ≡ length (lines_told kernel.old) }
{
    let mut before = None;
    'steps: for _ in 0..STEPS {
        let cycle = match kernel.stage() {
            Stage::Over => return Some(()),
            Stage::DateDue(_) => {
                kernel.date();
                if write_date(kernel, out).is_err() {
                    return None;
                }
                continue;
            }
            Stage::CycleDue(cycle) => {
                kernel.unit();
                cycle
            }
            Stage::UnitDue(cycle, _) => {
                kernel.unit();
                cycle
            }
        };
        let ran = kernel.ran();
        let seen = kernel.seen();
        if ran != before || seen.is_some() {
            tell(alloc, cycle, ran, seen, out)?;
        }
        before = ran;
    }
    None
}

/// Tells the units of the run that the words ask for. None where they ask for no run, or that couldn't be written.
pub fn tell_units<F: Shelf, S: Sink>(
    alloc: Global,
    words: &[String],
    shelf: &mut F,
    out: &mut S,
) -> Option<()> {
    match kernel_asked(alloc, words, shelf) {
        Ok(Some(mut kernel)) => tell_steps(alloc, &mut kernel, out),
        Ok(None) | Err(_) => None,
    }
}
