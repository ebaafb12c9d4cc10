//! What each agent of a processor may ask for over the length of a demand that the processor can't supply.
ghost use Rattle.std.specs.Prelude.{◌≡◌, ◌≤◌, IfOk, flat_map, length, map};
ghost use Rattle.psy_base.specs.declared.limits.TheConstants.{FILE_BYTES};
ghost use Rattle.psy_meaning.specs.Units.{IsBare};
ghost use Rattle.psy_report.specs.Agents.{agents_on, part_text};
ghost use Rattle.psy_report.specs.Asked.{AreAsked, AreAskedBy, overload_told, processor_told, up_to_last};

use crate::measures::{Known, measure};
use crate::part::{Load, add_parts};
use psy_base::{Memory, limits};
use psy_history::processors_of;
use psy_plan::{Stop, compile};
use psy_text::word::{number, words_of};
use std::alloc::{AllocError, Global};

/// What an agent may ask for.
pub const ASK: &[u8] = b"hint: `$` may ask for $ of them\n";

/// What each agent of a processor may ask for over the length of `line`, with which psyc told that the processor can't supply what its agents may demand:
/// a line for each of them, in the order of declaration. The program has at most 262,144 bytes. No bytes where it is another line, where the text is no
/// program or has no such processor, and where a limit stands against measuring it. The only error is want of memory.
pub fn asked_for(alloc: Global, program: &[u8], line: &[u8]) -> Result<Vec<u8>, Memory>
    requires { length program.now ≤ FILE_BYTES }
    ensures { IfOk result (λ told. AreAsked program.now line.now told.items) }
{
    let words = words_of(alloc, line)?;
    match overload_told(words.as_slice()) {
        None => Ok(Vec::new(alloc)),
        Some(over) => asked_by(alloc, program, over),
    }
}

// The length and the processor of a line that tells of a demand which can't be supplied.
fn overload_told(words: &[&[u8]]) -> Option<Load>
    ensures { result ≡ overload_told (map (λ w. w.now) words.now) }
{
    match words {
        [word, length, _, _, more @ ..] if *word == b"infeasible".as_slice() => {
            let within = up_to_last(number(length))?;
            let processor = processor_told(more)?;
            Some(Load { within, processor })
        }
        _ => None,
    }
}

// The processor that the words behind a supply tell.
fn processor_told(words: &[&[u8]]) -> Option<u64>
    ensures { result ≡ processor_told (map (λ w. w.now) words.now) }
{
    match words {
        [] => Some(0),
        [word, told] if *word == b"on".as_slice() => number(told),
        _ => None,
    }
}

fn up_to_last(number: Option<u64>) -> Option<u32>
    ensures { result ≡ up_to_last number }
{
    match number {
        Some(number) if number <= u64::from(limits::UNTIL) => Some(number as u32),
        _ => None,
    }
}

fn asked_by(alloc: Global, program: &[u8], over: Load) -> Result<Vec<u8>, Memory>
    requires { length program.now ≤ FILE_BYTES }
    ensures { IfOk result (λ told. AreAskedBy program.now over told.items) }
{
    let unit = match compile(alloc, program) {
        Ok(unit) => unit,
        Err(Stop::Refused(_)) => return Ok(Vec::new(alloc)),
        Err(Stop::Memory) => return Err(Memory),
    };
    if over.processor >= u64::from(processors_of(&unit)) {
        return Ok(Vec::new(alloc));
    }
    match measure(alloc, &unit, over.within) {
        Ok(measures) => {
            let known = Known {
                unit: &unit,
                measures: &measures,
            };
            Ok(lines(alloc, known, over)?)
        }
        Err(Stop::Refused(_)) => Ok(Vec::new(alloc)),
        Err(Stop::Memory) => Err(Memory),
    }
}

// A line for each agent of the processor.
fn lines(alloc: Global, known: Known, over: Load) -> Result<Vec<u8>, AllocError>
    requires { IsBare known.unit.now }
    ensures { IfOk result (λ told. told.items
        ≡ flat_map (part_text ASK.now known.entry.unit.now known.entry.measures.now over.within) (agents_on known.entry.unit.now over.processor)) }
{
    let mut out = Vec::new(alloc);
    add_parts(&mut out, ASK, known, over)?;
    Ok(out)
}
