//! The first difference of two logs.
ghost use Rattle.std.specs.Prelude.{◌≡◌, ◌<◌, ◌^◌, ◌++◌, ℕ, List, None, All, IfOk, IfSome, OnOk, map, slice_get};
ghost use Rattle.psy_log.specs.declared.note.Note.{Note};
ghost use Rattle.psy_log.specs.Forms.{line_of};
ghost use Rattle.psy_notes.specs.Stands.{run_begins};
ghost use Rattle.psy_notes.specs.Texts.{BreaksAt, IsText};
ghost use Rattle.psy_differ.specs.declared.fault.DiffFault.TheVariants.{First, Second};
ghost use Rattle.psy_differ.specs.Differences.{Differs, Fits, difference_text, side};

use crate::compare::first_difference;
use crate::fault::DiffFault;
use psy_log::{Line, Note};
use psy_notes::{TextFault, read_run};
use psy_text::write::add_number;
use std::alloc::{AllocError, Global};

/// The first line in which two logs of runs differ, and what stands there in each; none exactly where they are the same byte for byte.
pub fn diff(alloc: Global, first: &[u8], second: &[u8]) -> Result<Option<Vec<u8>>, DiffFault>
    ensures same { IfOk result (λ r. r ≡ None → first.now ≡ second.now) }
    ensures other { IfOk result (λ r. first.now ≡ second.now → r ≡ None) }
    ensures differs { IfOk result (λ r. IfSome r (λ text. Differs first.now second.now text.items)) }
    ensures logs { OnOk result (((notes : List Note) × IsText run_begins first.now notes) × ((notes : List Note) × IsText run_begins second.now notes)) }
    ensures first { (line : ℕ) → result ≡ Err (First line) → BreaksAt run_begins first.now line }
    ensures second { (line : ℕ) → result ≡ Err (Second line) → ((notes : List Note) × IsText run_begins first.now notes) × BreaksAt run_begins second.now line }
{
    let notes = match read_run(alloc, first) {
        Ok(notes) => notes,
        Err(TextFault::Line { line }) => return Err(DiffFault::First { line }),
        Err(TextFault::Memory) => return Err(DiffFault::Memory),
    };
    let others = match read_run(alloc, second) {
        Ok(notes) => notes,
        Err(TextFault::Line { line }) => return Err(DiffFault::Second { line }),
        Err(TextFault::Memory) => return Err(DiffFault::Memory),
    };
    if first == second {
        return Ok(None);
    }
    match first_difference(notes.as_slice(), others.as_slice()) {
        Some(place) => Ok(Some(difference_text(
            alloc,
            place,
            notes.as_slice(),
            others.as_slice(),
        )?)),
        None => Ok(None),
    }
}

// The text of a difference: the line's number, counted from 1, and what stands there.
fn difference_text(
    alloc: Global,
    place: usize,
    notes: &[Note],
    others: &[Note],
) -> Result<Vec<u8>, AllocError>
    requires place { place < 2 ^ 63 }
    requires first { All Fits notes.now }
    requires second { All Fits others.now }
    ensures { IfOk result (λ text. text.items ≡ difference_text place (slice_get (map line_of notes.now) place) (slice_get (map line_of others.now) place)) }
{
    let mut out = Vec::from_slice(alloc, b"line ")?;
    add_number(&mut out, place as u64 + 1)?;
    out.push(b'\n')?;
    add_side(&mut out, b'-', notes, place)?;
    add_side(&mut out, b'+', others, place)?;
    Ok(out)
}

// Adds the line at a place behind a sign, where there is one.
fn add_side(out: &mut Vec<u8>, sign: u8, notes: &[Note], place: usize) -> Result<(), AllocError>
    requires fits { All Fits notes.now }
    ensures { OnOk result (out.new.items ≡ out.old.items ++ side sign (slice_get (map line_of notes.now) place)) }
{
    if place >= notes.len() {
        return Ok(());
    }
    let mut line = Line::new();
    line.set(&notes[place]);
    out.push(sign)?;
    out.push(b' ')?;
    out.extend_from_slice(line.bytes())
}
