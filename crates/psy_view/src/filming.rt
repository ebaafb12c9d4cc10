//! The picture of the run in a file, by its program and inputs where they are asked for, however long it is.
ghost use Rattle.std.specs.Prelude.{◌≡◌, ◌≢◌, ◌<◌, ◌≤◌, ℕ, ◌∷◌, [], List, None, Some, IfOk, MatchOption, length};
ghost use Rattle.psy_base.specs.declared.limits.TheConstants.{FILE_BYTES};
ghost use Rattle.psy_film.specs.Films.{IsRunBy};
ghost use Rattle.psy_film.specs.declared.fault.FilmFault.{FilmFault};
ghost use Rattle.psy_log.specs.declared.note.Note.{Note as Noted};
ghost use Rattle.psy_passes.specs.declared.fault.PassFault.{PassFault};
ghost use Rattle.psy_view.specs.Asked.{Timeline, TimelineOf, TimelineWith};
ghost use Rattle.psy_view.specs.Filming.{IsFilmed, IsMismatch, SaysOf};
ghost use Rattle.psy_view.specs.Outcome.{IsToldOf, Replies};
ghost use Rattle.psy_view.specs.Reading.{names_in};

use crate::asked::Selection;
use crate::feeding::{Fed, fed_of};
use crate::fetching::{Fetched, FetchedRun, fetch, fetch_run};
use crate::picture::drawn;
use crate::programs::{Names, drawn_of, drawn_with};
use crate::refusals::{empty_line, foreign_line, unknown_line};
use crate::told::refused;
use crate::view::View;
use psy_base::Memory;
use psy_base::limits::FILE_BYTES;
use psy_export::{Said, refusal};
use psy_film::{FilmFault, Source, film, match_run};
use psy_plan::{Stop, program_of};
use psy_reel::Reel;
use std::alloc::Global;

// ---- the files

/// The picture of what is selected of the run in the file with this name: of a file that is read together that of its text, of a longer one by passes.
/// The only error is want of memory.
pub fn pictured<F: Reel>(
    alloc: Global,
    name: &str,
    selection: Selection,
    reel: &mut F,
) -> Result<View, Memory>
    ensures replies { IfOk result (λ v. Replies (F.files reel.old) (F.faults reel.old) (F.faults reel.new)
        (Timeline name.now selection.entry.window (names_in selection.entry)) v.status v.text.items) }
    ensures shelf { (F.faults reel.old ≤ F.faults reel.new) × (F.files reel.new ≡ F.files reel.old) }
{
    let fetched = fetch_run(alloc, reel, name)?;
    let run = match fetched {
        FetchedRun::Read(run) => run,
        FetchedRun::Unread(said) => return Ok(said),
    };
    match run {
        Some(bytes) => drawn(alloc, name, selection, bytes.as_slice()),
        None => filmed(alloc, name, selection, reel),
    }
}

/// The same by the program in a file.
pub fn pictured_of<F: Reel>(
    alloc: Global,
    name: &str,
    program: &str,
    selection: Selection,
    reel: &mut F,
) -> Result<View, Memory>
    ensures replies { IfOk result (λ v. Replies (F.files reel.old) (F.faults reel.old) (F.faults reel.new)
        (TimelineOf name.now program.now selection.entry.window (names_in selection.entry)) v.status v.text.items) }
    ensures shelf { (F.faults reel.old ≤ F.faults reel.new) × (F.files reel.new ≡ F.files reel.old) }
{
    let fetched = fetch_run(alloc, reel, name)?;
    let run = match fetched {
        FetchedRun::Read(run) => run,
        FetchedRun::Unread(said) => return Ok(said),
    };
    let also = fetch(alloc, reel, program, FILE_BYTES)?;
    let text = match also {
        Fetched::Text(text) => text,
        Fetched::Unread(said) => return Ok(said),
    };
    match run {
        Some(bytes) => drawn_of(
            alloc,
            name,
            program,
            selection,
            bytes.as_slice(),
            text.as_slice(),
        ),
        None => filmed_of(alloc, name, program, selection, text.as_slice(), reel),
    }
}

/// The same by the program in a file, and by the inputs in a third.
pub fn pictured_with<F: Reel>(
    alloc: Global,
    names: Names,
    selection: Selection,
    reel: &mut F,
) -> Result<View, Memory>
    ensures replies { IfOk result (λ v. Replies (F.files reel.old) (F.faults reel.old) (F.faults reel.new)
        (TimelineWith names.entry.log.now names.entry.program.now names.entry.inputs.now selection.entry.window (names_in selection.entry))
        v.status v.text.items) }
    ensures shelf { (F.faults reel.old ≤ F.faults reel.new) × (F.files reel.new ≡ F.files reel.old) }
{
    let fetched = fetch_run(alloc, reel, names.log)?;
    let run = match fetched {
        FetchedRun::Read(run) => run,
        FetchedRun::Unread(said) => return Ok(said),
    };
    let also = fetch(alloc, reel, names.program, FILE_BYTES)?;
    let text = match also {
        Fetched::Text(text) => text,
        Fetched::Unread(said) => return Ok(said),
    };
    let last = fetch(alloc, reel, names.inputs, FILE_BYTES)?;
    let fed = match last {
        Fetched::Text(fed) => fed,
        Fetched::Unread(said) => return Ok(said),
    };
    match run {
        Some(bytes) => drawn_with(
            alloc,
            names,
            selection,
            bytes.as_slice(),
            text.as_slice(),
            fed.as_slice(),
        ),
        None => filmed_with(
            alloc,
            names,
            selection,
            text.as_slice(),
            fed.as_slice(),
            reel,
        ),
    }
}

// ---- runs that are longer than is read together

// The picture of a run alone.
fn filmed<F: Reel>(
    alloc: Global,
    name: &str,
    selection: Selection,
    reel: &mut F,
) -> Result<View, Memory>
    ensures told { IfOk result (λ v. IsToldOf (F.files reel.old) (F.faults reel.old) (F.faults reel.new)
        (Timeline name.now selection.entry.window (names_in selection.entry)) name.now [] v.status v.text.items) }
    ensures shelf { (F.faults reel.old ≤ F.faults reel.new) × (F.files reel.new ≡ F.files reel.old) }
{
    film_by(alloc, name, "", selection, None, reel)
}

// By the program with this text.
fn filmed_of<F: Reel>(
    alloc: Global,
    name: &str,
    program: &str,
    selection: Selection,
    text: &[u8],
    reel: &mut F,
) -> Result<View, Memory>
    requires { length text.now ≤ FILE_BYTES }
    ensures told { IfOk result (λ v. IsToldOf (F.files reel.old) (F.faults reel.old) (F.faults reel.new)
        (TimelineOf name.now program.now selection.entry.window (names_in selection.entry)) name.now (text.now ∷ []) v.status v.text.items) }
    ensures shelf { (F.faults reel.old ≤ F.faults reel.new) × (F.files reel.new ≡ F.files reel.old) }
{
    let read = match program_of(alloc, text) {
        Ok(read) => read,
        Err(Stop::Refused(refusal)) => {
            return match mismatch(alloc, name, program, selection, None, reel)? {
                Some(told) => Ok(told),
                None => refused(alloc, program, text, refusal),
            };
        }
        Err(Stop::Memory) => return Err(Memory),
    };
    let source = Source {
        unit: &read.unit,
        inputs: None,
    };
    film_by(alloc, name, program, selection, Some(source), reel)
}

// By the program with this text, and by inputs with that one.
fn filmed_with<F: Reel>(
    alloc: Global,
    names: Names,
    selection: Selection,
    text: &[u8],
    fed: &[u8],
    reel: &mut F,
) -> Result<View, Memory>
    requires text { length text.now ≤ FILE_BYTES }
    requires fed { length fed.now ≤ FILE_BYTES }
    ensures told { IfOk result (λ v. IsToldOf (F.files reel.old) (F.faults reel.old) (F.faults reel.new)
        (TimelineWith names.entry.log.now names.entry.program.now names.entry.inputs.now selection.entry.window (names_in selection.entry))
        names.entry.log.now (text.now ∷ fed.now ∷ []) v.status v.text.items) }
    ensures shelf { (F.faults reel.old ≤ F.faults reel.new) × (F.files reel.new ≡ F.files reel.old) }
{
    let Names {
        log,
        program,
        inputs,
    } = names;
    let read = match program_of(alloc, text) {
        Ok(read) => read,
        Err(Stop::Refused(refusal)) => {
            return match mismatch(alloc, log, program, selection, None, reel)? {
                Some(told) => Ok(told),
                None => refused(alloc, program, text, refusal),
            };
        }
        Err(Stop::Memory) => return Err(Memory),
    };
    let unit = &read.unit;
    let came = fed_of(alloc, inputs, fed, unit)?;
    let lists = match came {
        Fed::Of(lists) => lists,
        Fed::Told(unfed) => {
            let source = Source { unit, inputs: None };
            return match mismatch(alloc, log, program, selection, Some(source), reel)? {
                Some(told) => Ok(told),
                None => Ok(unfed),
            };
        }
    };
    let source = Source {
        unit,
        inputs: Some(&lists),
    };
    film_by(alloc, log, program, selection, Some(source), reel)
}

// By the program in the file with that name, and by inputs, where they are given.
fn film_by<F: Reel>(
    alloc: Global,
    name: &str,
    program: &str,
    selection: Selection,
    source: Option<Source>,
    reel: &mut F,
) -> Result<View, Memory>
    ensures film { IfOk result (λ v. IsFilmed (F.files reel.old) (F.faults reel.old) (F.faults reel.new) name.now program.now selection.entry.window
        (names_in selection.entry) source.entry v.status v.text.items) }
    ensures shelf { (F.faults reel.old ≤ F.faults reel.new) × (F.files reel.new ≡ F.files reel.old) }
{
    let Selection { window, names } = selection;
    match film(alloc, reel, name, window, source, names) {
        Ok(svg) => Ok(View {
            status: 0,
            text: svg,
        }),
        Err(fault) => said_of(alloc, name, program, selection, fault),
    }
}

// What is told where the file with this name is no run, or none of the program, where one is given; none where it is one.
fn mismatch<F: Reel>(
    alloc: Global,
    name: &str,
    program: &str,
    selection: Selection,
    source: Option<Source>,
    reel: &mut F,
) -> Result<Option<View>, Memory>
    ensures film { IfOk result (λ came. MatchOption came ((notes : List Noted) × IsRunBy (F.files reel.old) name.now source.entry notes)
        (λ v. IsMismatch (F.files reel.old) (F.faults reel.old) (F.faults reel.new) name.now program.now source.entry v.status v.text.items)) }
    ensures shelf { (F.faults reel.old ≤ F.faults reel.new) × (F.files reel.new ≡ F.files reel.old) }
{
    match match_run(alloc, reel, name, source) {
        Ok(()) => Ok(None),
        Err(fault) => Ok(Some(said_of(alloc, name, program, selection, fault)?)),
    }
}

// What is said of a fault.
fn said_of(
    alloc: Global,
    name: &str,
    program: &str,
    selection: Selection,
    fault: FilmFault,
) -> Result<View, Memory>
    requires place { (place : ℕ) → fault ≡ FilmFault.Unknown place → place < length selection.names.now }
    requires written { fault ≢ FilmFault.Run PassFault.Unwritten }
    ensures { IfOk result (λ v. SaysOf name.now program.now selection.entry.window (names_in selection.entry) fault v.status v.text.items) }
{
    let Selection { window, names } = selection;
    match fault {
        FilmFault::Run(fault) => {
            let Said { status, text } = refusal(alloc, name, fault)?;
            Ok(View { status, text })
        }
        FilmFault::Foreign { line } => Ok(View {
            status: 1,
            text: foreign_line(alloc, name.as_bytes(), line, program.as_bytes())?,
        }),
        FilmFault::Unknown { place } => Ok(View {
            status: 1,
            text: unknown_line(alloc, name.as_bytes(), names[place].as_bytes())?,
        }),
        FilmFault::Empty => Ok(View {
            status: 1,
            text: empty_line(alloc, name.as_bytes(), window)?,
        }),
    }
}
