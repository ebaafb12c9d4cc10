//! Runs programs on several processors in each way in which a kernel may be brought from date to date: by ticks, slices, cycles and units.
//! Says of each text how long it is, and whether it is the one that the loop of psyc writes, and what the run leaves; and tells the last of the
//! runs unit by unit.
#![tactic(auto)]

mod drive;
mod left;
mod runs;
mod units;

use drive::DRIVES;
use left::tell_left;
use psy_door::{FileShelf, Shelf, Sink, StdSink};
use psy_log::write_all_of;
use runs::text_asked;
use std::alloc::Global;
use std::env;
use std::process::ExitCode;
use std::rt::Env;
use units::tell_units;

/// How many words ask for a run with inputs and a script.
const WORDS: usize = 5;

// The words after the program's name.
fn words(rt: &(impl Env + AllocGlobal)) -> Option<Vec<String>> {
    let mut words = Vec::new(rt.alloc());
    for word in env::args(rt).ok()?.skip(1) {
        words.push(word).ok()?;
    }
    Some(words)
}

// How many bytes are the same at the front of two texts.
fn same_front(text: &[u8], wanted: &[u8]) -> usize {
    let pairs = text.iter().zip(wanted.iter());
    pairs.take_while(|pair| pair.0 == pair.1).count()
}

// What is said of a text that a drive wrote, where the loop wrote the other one.
fn verdict(alloc: Global, text: &[u8], wanted: &[u8]) -> Option<String> {
    let same = same_front(text, wanted);
    if same == text.len() && same == wanted.len() {
        return format!(in alloc; "{} bytes, the same", text.len()).ok();
    }
    format!(in alloc; "{} bytes, of which {same} are the same", text.len()).ok()
}

// Runs what the words ask for in each way, and says how it went and what it leaves. None where that can't be done.
fn compare<F: Shelf, S: Sink>(
    alloc: Global,
    asked: &[String],
    shelf: &mut F,
    out: &mut S,
) -> Option<()> {
    let script = asked.last()?;
    let wanted = text_asked(alloc, asked, shelf, None)?;
    for drive in DRIVES {
        let text = text_asked(alloc, asked, shelf, Some(drive))?;
        let said = verdict(alloc, text.bytes(), wanted.bytes())?;
        let line = format!(in alloc; "{script} by {}: {said}\n", drive.name()).ok()?;
        write_all_of(out, line.as_bytes()).ok()?;
    }
    let line = format!(in alloc; "{script} leaves").ok()?;
    write_all_of(out, line.as_bytes()).ok()?;
    tell_left(alloc, asked, shelf, out)
}

// Does so for each of the runs that the words ask for, and tells the last of them unit by unit.
fn compare_all<F: Shelf, S: Sink>(
    alloc: Global,
    words: &[String],
    shelf: &mut F,
    out: &mut S,
) -> Option<()> {
    for asked in words.chunks(WORDS) {
        compare(alloc, asked, shelf, out)?;
    }
    tell_units(alloc, words.chunks(WORDS).last()?, shelf, out)
}

fn main(rt: HostRuntime) -> ExitCode {
    let Some(words) = words(&rt) else {
        return ExitCode::from(8);
    };
    let mut shelf = FileShelf::new(&rt);
    let mut out = StdSink::new(rt.stdout());
    match compare_all(rt.alloc(), words.as_slice(), &mut shelf, &mut out) {
        Some(()) => ExitCode::from(0),
        None => ExitCode::from(1),
    }
}
