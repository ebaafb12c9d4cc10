//! A trace that was worked out by hand, and ways to spoil it.
use crate::judged::judged;
use psy_audit::{AuditFault, Legal};
use psy_base::Memory;
use std::alloc::Global;

/// Fast has cycles 0 to 6, Slow 7 to 9, and looks at `v` in the first of them.
const LINES: [&str; 9] = [
    "act Fast 0 0 0 2 7 2\n",
    "act Slow 0 0 0 10 3 10\n",
    "pub v 0 0 0\n",
    "pub v 2 1 1\n",
    "pub w 0 0 0\n",
    "seg 0 0 7 Fast 0\n",
    "seg 0 7 10 Slow 0\n",
    "look Slow 0 7 v 0 0 0\n",
    "end 2\n",
];

/// What is told of a trace: it is legal, with its two actions and one look.
pub const LEGAL: Result<Legal, AuditFault> = Ok(Legal { acts: 2, looks: 1 });

/// What is told of a trace: of what number its first fault is, and in which line.
pub const fn wrong(number: u32, line: u32) -> Result<Legal, AuditFault> {
    Err(AuditFault::Fault { number, line })
}

/// How the trace is spoilt: between its first so many lines and those behind so many stand others.
pub type Change = (usize, &'static str, usize);

/// The text of the trace with a change. Nothing is said of its bytes, so that no proof computes with them.
pub fn spoilt(alloc: Global, change: Change) -> Result<Vec<u8>, Memory> {
    let (front, lines, back) = change;
    let mut text = Vec::new(alloc);
    for line in LINES.iter().take(front) {
        text.extend_from_slice(line.as_bytes())?;
    }
    text.extend_from_slice(lines.as_bytes())?;
    for line in LINES.iter().skip(back) {
        text.extend_from_slice(line.as_bytes())?;
    }
    Ok(text)
}

/// What is told of that text.
pub fn judged_with(alloc: Global, change: Change) -> Result<Legal, AuditFault> {
    let text = spoilt(alloc, change)?;
    judged(alloc, text.as_slice())
}
