//! Views of what psyc wrote by the program that it is of.
ghost use Rattle.std.specs.Prelude.{◌≡◌, ◌∷◌, ◌++◌, ◌≤◌, [], None, IfOk, length};
ghost use Rattle.psy_base.specs.declared.limits.TheConstants.{FILE_BYTES};
ghost use Rattle.psy_meaning.specs.Units.{IsOfText};
ghost use Rattle.psy_view.specs.Asked.{DotOf, TimelineOf, TimelineWith};
ghost use Rattle.psy_view.specs.Reading.{names_in};
ghost use Rattle.psy_match.specs.Belonging.{foreign_in_run};
ghost use Rattle.psy_match.specs.Knowledge.{knowledge_in};
ghost use Rattle.psy_view.specs.Views.{IsFed, IsShown, ViewOf};

use crate::asked::Selection;
use crate::feeding::{Fed, fed_of};
use crate::pair::{Matched, Pair, graph_of, run_of};
use crate::picture::shown;
use crate::view::View;
use psy_base::Memory;
use psy_draw::{Known, dot_by_point, last_date};
use psy_log::Note;
use psy_match::laws::fed_alike;
use psy_match::{homes, input_notes, point_lines, silences};
use psy_tree::Unit;
use std::alloc::{AllocError, Global};

/// The graphs in a text, by the points of the program in another. The only error is want of memory.
#[tactic(auto, using(crate::specs::Views::dotted_of, crate::specs::Views::undotted_of))]
pub fn dotted_of(
    alloc: Global,
    name: &str,
    program: &str,
    bytes: &[u8],
    text: &[u8],
) -> Result<View, Memory>
    requires { length text.now ≤ FILE_BYTES }
    ensures { IfOk result (λ v. ViewOf (DotOf name.now program.now) (bytes.now ∷ text.now ∷ []) v.status v.text.items) }
{
    let matched = graph_of(alloc, name, program, bytes, text)?;
    match matched {
        Matched::Told(told) => Ok(told),
        Matched::Of(pair) => {
            let homes = homes(alloc, &pair.program.unit)?;
            let lines = point_lines(alloc, text, pair.program.tokens.as_slice())?;
            Ok(View {
                status: 0,
                text: dot_by_point(
                    alloc,
                    pair.notes.as_slice(),
                    homes.as_slice(),
                    lines.as_slice(),
                )?,
            })
        }
    }
}

/// The picture of the run in a text, by the program in another. The only error is want of memory.
pub fn drawn_of(
    alloc: Global,
    name: &str,
    program: &str,
    selection: Selection,
    bytes: &[u8],
    text: &[u8],
) -> Result<View, Memory>
    requires { length text.now ≤ FILE_BYTES }
    ensures { IfOk result (λ v. ViewOf (TimelineOf name.now program.now selection.entry.window (names_in selection.entry)) (bytes.now ∷ text.now ∷ [])
        v.status v.text.items) }
{
    let matched = run_of(alloc, name, program, bytes, text)?;
    match matched {
        Matched::Told(told) => Ok(told),
        Matched::Of(pair) => drawn_alone(alloc, name, selection, &pair),
    }
}

// The same of a run and its program.
fn drawn_alone(alloc: Global, name: &str, selection: Selection, pair: &Pair) -> Result<View, Memory>
    ensures { IfOk result (λ v. IsShown name.now selection.entry.window (knowledge_in pair.now.program.unit pair.now.notes.items)
        (names_in selection.entry) pair.now.notes.items v.status v.text.items) }
{
    let notes = pair.notes.as_slice();
    shown_by(alloc, name, selection, notes, notes, &pair.program.unit)
}

// The picture of notes, by the program of the run with those notes.
fn shown_by<'a>(
    alloc: Global,
    name: &str,
    selection: Selection,
    notes: &[Note<'a>],
    run: &[Note<'a>],
    unit: &Unit,
) -> Result<View, Memory>
    ensures { IfOk result (λ v. IsShown name.now selection.entry.window (knowledge_in unit.now run.now) (names_in selection.entry) notes.now
        v.status v.text.items) }
{
    let silences = silences(alloc, run, unit)?;
    let homes = homes(alloc, unit)?;
    let known = Known {
        silences: silences.as_slice(),
        homes: homes.as_slice(),
    };
    shown(alloc, name, selection, notes, known)
}

/// The names of a log, of its program and of its inputs.
#[derive(Clone, Copy)]
pub struct Names<'a> {
    pub log: &'a str,
    pub program: &'a str,
    pub inputs: &'a str,
}

/// The picture of the run in a text, by the program in another and the inputs in a third. The only error is want of memory.
pub fn drawn_with(
    alloc: Global,
    names: Names,
    selection: Selection,
    bytes: &[u8],
    text: &[u8],
    fed: &[u8],
) -> Result<View, Memory>
    requires text { length text.now ≤ FILE_BYTES }
    requires fed { length fed.now ≤ FILE_BYTES }
    ensures { IfOk result (λ v. ViewOf (TimelineWith names.entry.log.now names.entry.program.now names.entry.inputs.now selection.entry.window
        (names_in selection.entry)) (bytes.now ∷ text.now ∷ fed.now ∷ []) v.status v.text.items) }
{
    let matched = run_of(alloc, names.log, names.program, bytes, text)?;
    match matched {
        Matched::Told(told) => Ok(told),
        Matched::Of(pair) => drawn_by(alloc, names, selection, &pair, fed),
    }
}

// The same of a run and its program.
fn drawn_by(
    alloc: Global,
    names: Names,
    selection: Selection,
    pair: &Pair,
    fed: &[u8],
) -> Result<View, Memory>
    requires text { IsOfText pair.now.program.unit }
    requires own { foreign_in_run pair.now.program.unit pair.now.notes.items ≡ None }
    requires fed { length fed.now ≤ FILE_BYTES }
    ensures { IfOk result (λ v. IsFed names.entry.log.now names.entry.inputs.now selection.entry.window (names_in selection.entry) pair.now.notes.items
        pair.now.program.unit fed.now v.status v.text.items) }
{
    fed_alike();
    let unit = &pair.program.unit;
    let notes = pair.notes.as_slice();
    let came = fed_of(alloc, names.inputs, fed, unit)?;
    let inputs = match came {
        Fed::Of(inputs) => inputs,
        Fed::Told(told) => return Ok(told),
    };
    let more = input_notes(alloc, unit, &inputs, last_date(notes))?;
    let all = joined(alloc, notes, more.as_slice())?;
    shown_by(alloc, names.log, selection, all.as_slice(), notes, unit)
}

// Notes behind others.
fn joined<'a>(
    alloc: Global,
    notes: &[Note<'a>],
    more: &[Note<'a>],
) -> Result<Vec<Note<'a>>, AllocError>
    ensures { IfOk result (λ all. all.items ≡ notes.now ++ more.now) }
{
    let mut all = Vec::from_slice(alloc, notes)?;
    all.extend_from_slice(more)?;
    Ok(all)
}
