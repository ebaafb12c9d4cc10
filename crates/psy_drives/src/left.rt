//! What a run leaves when it is over: its state as bytes, or the agent that is busy.
ghost use Rattle.std.specs.Prelude.{◌≡◌};
ghost use Rattle.psy_kernel.specs.Progress.{booted};

use crate::drive::Drive;
use crate::runs::text_of;
use psy_dates::Opening;
use psy_door::{Shelf, Sink};
use psy_kernel::{FreezeFault, Kernel, Stage};
use psy_log::write_all_of;
use psy_run::kernel_asked;
use psy_snap::spell;
use std::alloc::Global;

// Writes the numbers of some bytes, and the end of the line.
fn tell_bytes<S: Sink>(alloc: Global, bytes: &[u8], out: &mut S) -> Option<()> {
    for byte in bytes {
        let word = format!(in alloc; " {byte}").ok()?;
        write_all_of(out, word.as_bytes()).ok()?;
    }
    write_all_of(out, b"\n").ok()
}

// Writes the bytes of a state.
fn tell_state<S: Sink>(alloc: Global, state: &Opening, out: &mut S) -> Option<()> {
    if state.date > u64::from(u32::MAX) {
        return None;
    }
    let bytes = spell(alloc, state).ok()?;
    tell_bytes(alloc, bytes.as_slice(), out)
}

// Writes what a kernel leaves. None where its run isn't over.
fn tell_kernel<S: Sink>(alloc: Global, kernel: &Kernel, out: &mut S) -> Option<()> {
    if kernel.stage() != Stage::Over {
        return None;
    }
    match kernel.freeze(alloc) {
        Ok(state) => tell_state(alloc, &state, out),
        Err(FreezeFault::Busy(agent)) => {
            let words = format!(in alloc; " agent {agent} busy\n").ok()?;
            write_all_of(out, words.as_bytes()).ok()
        }
        Err(FreezeFault::Memory) => None,
    }
}

// Runs a kernel to its end, and writes what it leaves.
fn tell_run<S: Sink>(alloc: Global, kernel: &mut Kernel, out: &mut S) -> Option<()>
    requires booted { kernel.old ≡ booted kernel.old.plan kernel.old.inputs kernel.old.script }
{
    text_of(alloc, kernel, Some(Drive::Tick))?;
    tell_kernel(alloc, kernel, out)
}

/// Tells what the run leaves that the words ask for. None where they ask for no run, or that couldn't be written.
pub fn tell_left<F: Shelf, S: Sink>(
    alloc: Global,
    words: &[String],
    shelf: &mut F,
    out: &mut S,
) -> Option<()> {
    match kernel_asked(alloc, words, shelf) {
        Ok(Some(mut kernel)) => tell_run(alloc, &mut kernel, out),
        Ok(None) | Err(_) => None,
    }
}
