//! What psyc wrote, beside the program that it is of.
ghost use Rattle.std.specs.Prelude.{◌≤◌, IfOk, length};
ghost use Rattle.psy_base.specs.declared.limits.TheConstants.{FILE_BYTES};
ghost use Rattle.psy_view.specs.Refusals.{broken_text, foreign_line};
ghost use Rattle.psy_view.specs.Pairing.{IsGraphMatched, IsRunMatched, Says};

use crate::refusals::{broken_text, foreign_line};
use crate::told::refused;
use crate::view::View;
use psy_base::Memory;
use psy_log::Note;
use psy_match::{foreign_in_graph, foreign_in_run};
use psy_notes::{TextFault, read_graph, read_run};
use psy_plan::{Program, Stop, program_of};
use std::alloc::Global;

/// What psyc wrote, and the program that it is of.
#[derive(Drop)]
pub struct Pair<'a> {
    pub notes: Vec<Note<'a>>,
    pub program: Program,
}

/// What came of two texts: a pair, or what is said where there is none.
#[derive(Drop)]
pub enum Matched<'a> {
    Of(Pair<'a>),
    Told(View),
}

/// The run in a text, and the program in another.
#[tactic(auto, using(crate::specs::Views::breaks, crate::specs::Views::is_foreign))]
pub fn run_of<'a>(
    alloc: Global,
    name: &str,
    program: &str,
    bytes: &'a [u8],
    text: &[u8],
) -> Result<Matched<'a>, Memory>
    requires { length text.now ≤ FILE_BYTES }
    ensures { IfOk result (λ matched. IsRunMatched name.now program.now bytes.now text.now matched) }
{
    let notes = match read_run(alloc, bytes) {
        Ok(notes) => notes,
        Err(TextFault::Line { line }) => return broken(alloc, name, line, b"run", bytes),
        Err(TextFault::Memory) => return Err(Memory),
    };
    let read = match program_of(alloc, text) {
        Ok(read) => read,
        Err(Stop::Refused(refusal)) => {
            return Ok(Matched::Told(refused(alloc, program, text, refusal)?));
        }
        Err(Stop::Memory) => return Err(Memory),
    };
    match foreign_in_run(notes.as_slice(), &read.unit) {
        Some(line) => foreign(alloc, name, line, program),
        None => Ok(Matched::Of(Pair {
            notes,
            program: read,
        })),
    }
}

/// The graphs in a text, and the program in another.
#[tactic(auto, using(crate::specs::Views::breaks, crate::specs::Views::is_foreign))]
pub fn graph_of<'a>(
    alloc: Global,
    name: &str,
    program: &str,
    bytes: &'a [u8],
    text: &[u8],
) -> Result<Matched<'a>, Memory>
    requires { length text.now ≤ FILE_BYTES }
    ensures { IfOk result (λ matched. IsGraphMatched name.now program.now bytes.now text.now matched) }
{
    let notes = match read_graph(alloc, bytes) {
        Ok(notes) => notes,
        Err(TextFault::Line { line }) => return broken(alloc, name, line, b"graph", bytes),
        Err(TextFault::Memory) => return Err(Memory),
    };
    let read = match program_of(alloc, text) {
        Ok(read) => read,
        Err(Stop::Refused(refusal)) => {
            return Ok(Matched::Told(refused(alloc, program, text, refusal)?));
        }
        Err(Stop::Memory) => return Err(Memory),
    };
    match foreign_in_graph(notes.as_slice(), &read.unit) {
        Some(line) => foreign(alloc, name, line, program),
        None => Ok(Matched::Of(Pair {
            notes,
            program: read,
        })),
    }
}

fn broken<'a>(
    alloc: Global,
    name: &str,
    line: usize,
    command: &[u8],
    bytes: &[u8],
) -> Result<Matched<'a>, Memory>
    ensures { IfOk result (λ matched. Says matched (broken_text name.now line command.now bytes.now)) }
{
    Ok(Matched::Told(View {
        status: 1,
        text: broken_text(alloc, name.as_bytes(), line, command, bytes)?,
    }))
}

fn foreign<'a>(alloc: Global, name: &str, line: usize, program: &str) -> Result<Matched<'a>, Memory>
    ensures { IfOk result (λ matched. Says matched (foreign_line name.now line program.now)) }
{
    Ok(Matched::Told(View {
        status: 1,
        text: foreign_line(alloc, name.as_bytes(), line, program.as_bytes())?,
    }))
}
