//! `psyview`: the top calls over the files of the system and standard output.
//! It may know psy_view and psy_serve, and which files and sink are the real ones.
#![tactic(auto)]

use psy_base::Memory;
use psy_door::{FileShelf, StdSink};
use psy_last::LastLine;
use psy_reel::FileReel;
use psy_serve::serve;
use psy_view::psyview;
use std::alloc::Global;
use std::process::ExitCode;
use std::rt::Env;
use std::{env, io};

// The words after the program's name.
fn words(rt: &(impl Env + AllocGlobal)) -> io::Result<Vec<String>> {
    let mut words = Vec::new(rt.alloc());
    for word in env::args(rt)?.skip(1) {
        if words.push(word).is_err() {
            return Err(io::Error::from(io::ErrorKind::OutOfMemory));
        }
    }
    Ok(words)
}

// What stands for words that can't be read, as those that aren't text: one empty word, which asks for nothing.
fn unread(alloc: Global) -> Result<Vec<String>, Memory> {
    let mut words = Vec::new(alloc);
    words.push(String::new(alloc))?;
    Ok(words)
}

// The words ask for what psyc does, explained.
fn is_served(words: &[String]) -> bool {
    match words {
        [command, ..] => matches!(command.as_str(), "run" | "check"),
        [] => false,
    }
}

// What psyc does, and behind a line with which it refuses the explanation.
fn served(rt: &HostRuntime, words: &[String]) -> u8 {
    let mut shelf = FileShelf::new(rt);
    let mut out = LastLine::new(StdSink::new(rt.stdout()));
    serve(rt.alloc(), words, &mut shelf, &mut out)
}

// A view of a text.
fn viewed(rt: &HostRuntime, words: &[String]) -> u8 {
    let mut shelf = FileReel::new(rt);
    let mut out = StdSink::new(rt.stdout());
    psyview(rt.alloc(), words, &mut shelf, &mut out)
}

fn main(rt: HostRuntime) -> ExitCode {
    let words = match words(&rt) {
        Ok(words) => words,
        Err(error) if error.kind() == io::ErrorKind::OutOfMemory => return ExitCode::from(8),
        Err(_) => match unread(rt.alloc()) {
            Ok(words) => words,
            Err(Memory) => return ExitCode::from(8),
        },
    };
    ExitCode::from(if is_served(words.as_slice()) {
        served(&rt, words.as_slice())
    } else {
        viewed(&rt, words.as_slice())
    })
}
