//! A run for 100,000,000,000 cycles, nearly all of which are idle: how long its text is and how it ends. A kernel that went through them one by one
//! wouldn't be done in hours. The command has a limit far below, so no case can ask for it.
ghost use Rattle.std.specs.Prelude.{◌≡◌};
ghost use Rattle.psy_kernel.specs.Progress.{booted};

use psy_door::SinkVec;
use psy_kernel::Kernel;
use psy_run::{kernel_of, run_loop};
use std::alloc::Global;

/// A counter with a tick of 1,000,000 cycles, of which each action needs 8 at most.
const COUNTER: &[u8] = b"tick 1000000; clock c = 10 * tick; temporal v of A on c = 0 depth 1; \
agent A on c budget 40 { int n = 0; body { n = n + 1; v = n; advance 1 on c; } }";

/// The last date of its run.
const LAST: u32 = 100_000;

/// How many bytes the last line of a date and the summary have.
const END: usize = 63;

// What a kernel's run writes, in room for all of it. None where memory ran out.
fn run_of(alloc: Global, kernel: &mut Kernel) -> Option<SinkVec>
    requires booted { kernel.old ≡ booted kernel.old.plan kernel.old.inputs kernel.old.script }
{
    let room = 10 * LAST as usize;
    let mut out = SinkVec::new(alloc, room, room, Vec::new(alloc)).ok()?;
    run_loop(kernel, &mut out).ok()?;
    Some(out)
}

/// What its run writes. None where memory ran out.
pub fn written(alloc: Global) -> Option<SinkVec> {
    let text = Vec::from_slice(alloc, COUNTER).ok()?;
    let Ok(mut kernel) = kernel_of(alloc, &text, LAST) else {
        return None;
    };
    run_of(alloc, &mut kernel)
}

/// The last line of a date and the summary, of what the run wrote.
pub fn end(text: &[u8]) -> &[u8] {
    if text.len() <= END {
        return text;
    }
    &text[text.len() - END..]
}
