//! Tries cases on exports of runs that are read piece by piece: files, and the answers that are wanted.
#![tactic(auto)]

use psy_base::Memory;
use psy_cases::{Answer, Asked, Command, run_list};
use psy_door::{FileShelf, ShelfMap, SinkVec, StdSink};
use psy_export::{Format, export};
use psy_pieces::ShelfReel;
use psy_text::word::number;
use std::alloc::Global;
use std::env;
use std::process::ExitCode;
use std::rt::Env;

/// `csv NAME BYTES` or `vcd NAME BYTES`, where so many bytes of the file come together at most. The numbers in `unread` are those of the calls for a
/// piece that fail.
#[derive(Drop)]
struct Exports;

// What the words ask for: a format, a file, and how many bytes of it come together.
#[derive(Clone, Copy)]
struct Request<'a> {
    format: Format,
    name: &'a str,
    piece: usize,
}

// The format of a command.
fn format_of(command: &str) -> Option<Format> {
    match command {
        "csv" => Some(Format::Table),
        "vcd" => Some(Format::Dump),
        _ => None,
    }
}

fn wanted(words: &[String]) -> Option<Request<'_>> {
    match words {
        [command, name, piece] => Some(Request {
            format: format_of(command.as_str())?,
            name: name.as_str(),
            piece: usize::try_from(number(piece.as_bytes())?).ok()?,
        }),
        _ => None,
    }
}

impl Command for Exports {
    fn answer(&mut self, alloc: Global, asked: Asked<'_>) -> Result<Answer, Memory> {
        let Some(wanted) = wanted(asked.words) else {
            return Ok(Answer {
                status: 2,
                text: Vec::new(alloc),
                is_sound: true,
            });
        };
        let shelf = ShelfMap::new(asked.files, Vec::new(alloc));
        let mut reel = ShelfReel::new(alloc, shelf, wanted.piece.max(1), asked.unread);
        let mut out = SinkVec::new(alloc, asked.room, asked.most.max(1), asked.fails)?;
        let status = export(alloc, wanted.format, &mut reel, wanted.name, &mut out);
        Ok(Answer {
            status,
            text: Vec::from_slice(alloc, out.bytes())?,
            is_sound: true,
        })
    }
}

// The first word after the program's name.
fn list(rt: &(impl Env + AllocGlobal)) -> Option<String> {
    env::args(rt).ok()?.nth(1)
}

fn main(rt: HostRuntime) -> ExitCode {
    let Some(list) = list(&rt) else {
        return ExitCode::from(2);
    };
    let mut shelf = FileShelf::new(&rt);
    let mut out = StdSink::new(rt.stdout());
    let status = run_list(
        rt.alloc(),
        list.as_str(),
        &mut Exports,
        &mut shelf,
        &mut out,
    );
    ExitCode::from(status)
}
