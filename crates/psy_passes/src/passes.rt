//! The passes.
ghost use Rattle.std.specs.Prelude.{◌≡◌, ◌≢◌, ◌+◌, ◌≤◌, ℕ, List, ◌++◌, None, Some, IfOk, IfErr, OnOk, OnErr};
ghost use Rattle.psy_door.specs.Faults.{Rose};
ghost use Rattle.psy_door.specs.Growth.{Grew, GrewByFront};
ghost use Rattle.psy_log.specs.declared.note.Note.{Note as Said};
ghost use Rattle.psy_notes.specs.declared.stand.Stand.{Stand};
ghost use Rattle.psy_notes.specs.Stands.{run_begins};
ghost use Rattle.psy_notes.specs.Texts.{BreaksAt, Leads, text_of};
ghost use Rattle.psy_passes.specs.Listing.{first_unlisted};
ghost use Rattle.psy_passes.specs.Logs.{IsLog};
ghost use Rattle.psy_passes.specs.Runs.{IsRun, tail_of};
ghost use Rattle.psy_passes.specs.Telling.{Told};
ghost use Rattle.psy_passes.specs.NameChecks.{AreNamesOf, EndAs, IsTail};
ghost use Rattle.psy_passes.specs.Outcomes.{IsFileText, IsMany, IsOfForm, IsOfNames, IsOfTelling, since};

use crate::fault::PassFault;
use crate::laws::found_unlisted;
use crate::name_check::NameCheck;
use crate::nowhere::Nowhere;
use crate::silent::Silent;
use crate::strict::Strict;
use crate::{Listed, ScanFault, Tell, scan};
use psy_base::Memory;
use psy_door::Sink;
use psy_log::{Note, write_all_of};
use psy_notes::laws::{one_front, one_reading};
use psy_notes::{TextFault, read_run};
use psy_reel::Reel;
use std::alloc::Global;

// The lines of the end and of the summary of the run in the file with this name, each of whose lines is in form.
#[tactic(auto, using(crate::proofs::Twice::broken_file, crate::proofs::Twice::many_file))]
fn summary_of<R: Reel>(alloc: Global, reel: &mut R, name: &str) -> Result<Vec<u8>, PassFault>
    ensures done { IfOk result (λ tail. (notes : List Said) × IsRun (R.files reel.old) name.now notes × (tail.items ≡ tail_of notes)) }
    ensures line { (line : ℕ) → result ≡ Err (PassFault.Line line)
        → (text : List ℕ) × IsFileText (R.files reel.old) name.now text × BreaksAt run_begins text line }
    ensures many { result ≡ Err PassFault.Many → (text : List ℕ) × IsFileText (R.files reel.old) name.now text × IsMany text }
    ensures only { IfErr result (λ fault. IsOfForm fault) }
    ensures unread { result ≡ Err PassFault.Unread → Rose (R.faults reel.old) (R.faults reel.new) }
    ensures readable { result ≢ Err PassFault.Unread → R.faults reel.new ≡ R.faults reel.old }
    ensures reel { (R.faults reel.old ≤ R.faults reel.new) × (R.files reel.new ≡ R.files reel.old) }
{
    match scan(alloc, reel, name, &mut Silent, &mut Nowhere) {
        Ok(tail) => Ok(tail),
        Err(ScanFault::Line { line }) => Err(PassFault::Line { line }),
        Err(ScanFault::Many) => Err(PassFault::Many),
        Err(ScanFault::Unread) => Err(PassFault::Unread),
        Err(ScanFault::Refused { .. } | ScanFault::Unwritten | ScanFault::Memory) => {
            Err(PassFault::Memory)
        }
    }
}

/// The notes of a run's end and summary that have these lines. The only error is want of memory.
pub fn notes_of<'a>(alloc: Global, tail: &'a [u8]) -> Result<Vec<Note<'a>>, Memory>
    requires { IsTail tail.now }
    ensures { IfOk result (λ notes. EndAs notes.items tail.now) }
{
    one_front();
    one_reading();
    match read_run(alloc, tail) {
        Ok(notes) => Ok(notes),
        Err(TextFault::Line { .. }) => unreachable!(),
        Err(TextFault::Memory) => Err(Memory),
    }
}

/// The names that the summary of a run lists whose end and summary have these lines. The only error is want of memory.
pub fn names_of<'a>(alloc: Global, tail: &'a [u8]) -> Result<Listed<'a>, Memory>
    requires { IsTail tail.now }
    ensures { IfOk result (λ listed. AreNamesOf listed tail.now) }
{
    let notes = notes_of(alloc, tail)?;
    Listed::of(alloc, notes.as_slice())
}

// What a fault of a file is that was read to its end before: where it isn't as it was, it changed.
fn since(fault: ScanFault) -> PassFault
    ensures { result ≡ since fault }
{
    match fault {
        ScanFault::Line { .. } | ScanFault::Many | ScanFault::Refused { .. } => PassFault::Changed,
        ScanFault::Unread => PassFault::Unread,
        ScanFault::Unwritten => PassFault::Unwritten,
        ScanFault::Memory => PassFault::Memory,
    }
}

// Looks whether these names, which a summary with these lines lists, are all that the run in the file has.
fn check_names<R: Reel>(
    alloc: Global,
    reel: &mut R,
    name: &str,
    tail: &[u8],
    listed: &Listed<'_>,
) -> Result<(), PassFault>
    requires { AreNamesOf listed.now tail.now }
    ensures done { OnOk result ((notes : List Said) × IsRun (R.files reel.old) name.now notes × IsLog (text_of notes) notes
        × (tail_of notes ≡ tail.now)) }
    ensures unlisted { (line : ℕ) → result ≡ Err (PassFault.Unlisted line)
        → (notes : List Said) × IsRun (R.files reel.old) name.now notes × (first_unlisted notes ≡ Some line) }
    ensures changed { result ≡ Err PassFault.Changed → (before : List Said) → IsRun (R.files reel.old) name.now before
        → tail_of before ≡ tail.now → R.files reel.old ≡ None }
    ensures only { IfErr result (λ fault. IsOfNames fault) }
    ensures unread { result ≡ Err PassFault.Unread → Rose (R.faults reel.old) (R.faults reel.new) }
    ensures readable { result ≢ Err PassFault.Unread → R.faults reel.new ≡ R.faults reel.old }
    ensures reel { (R.faults reel.old ≤ R.faults reel.new) × (R.files reel.new ≡ R.files reel.old) }
{
    one_front();
    one_reading();
    found_unlisted();
    let mut check = NameCheck::new(listed);
    let now = match scan(alloc, reel, name, &mut check, &mut Nowhere) {
        Ok(now) => now,
        Err(fault) => return Err(since(fault)),
    };
    if now.as_slice() != tail {
        return Err(PassFault::Changed);
    }
    match check.unlisted {
        Some(line) => Err(PassFault::Unlisted { line }),
        None => Ok(()),
    }
}

/// The lines of the end and of the summary of the run in the file with this name, all of whose lines are in form, and whose summary lists each
/// name that they have. The file is read twice.
pub fn survey<R: Reel>(alloc: Global, reel: &mut R, name: &str) -> Result<Vec<u8>, PassFault>
    ensures done { IfOk result (λ tail. (notes : List Said) × IsRun (R.files reel.old) name.now notes × IsLog (text_of notes) notes
        × (tail.items ≡ tail_of notes)) }
    ensures line { (line : ℕ) → result ≡ Err (PassFault.Line line)
        → (text : List ℕ) × IsFileText (R.files reel.old) name.now text × BreaksAt run_begins text line }
    ensures unlisted { (line : ℕ) → result ≡ Err (PassFault.Unlisted line)
        → (notes : List Said) × IsRun (R.files reel.old) name.now notes × (first_unlisted notes ≡ Some line) }
    ensures many { result ≡ Err PassFault.Many → (text : List ℕ) × IsFileText (R.files reel.old) name.now text × IsMany text }
    ensures changed { result ≡ Err PassFault.Changed → R.files reel.old ≡ None }
    ensures only { result ≢ Err PassFault.Unwritten }
    ensures unread { result ≡ Err PassFault.Unread → Rose (R.faults reel.old) (R.faults reel.new) }
    ensures readable { result ≢ Err PassFault.Unread → R.faults reel.new ≡ R.faults reel.old }
    ensures reel { (R.faults reel.old ≤ R.faults reel.new) × (R.files reel.new ≡ R.files reel.old) }
{
    let tail = match summary_of(alloc, reel, name) {
        Ok(tail) => tail,
        Err(fault) => return Err(fault),
    };
    {
        let lines = tail.as_slice();
        let listed = match names_of(alloc, lines) {
            Ok(listed) => listed,
            Err(Memory) => return Err(PassFault::Memory),
        };
        if let Err(fault) = check_names(alloc, reel, name, lines, &listed) {
            return Err(fault);
        }
    }
    Ok(tail)
}

/// Tells of each note of the run in the file with this name, whose end and summary have these lines, and writes what is told.
pub fn write_told<R: Reel, T: Tell + Drop, S: Sink>(
    alloc: Global,
    reel: &mut R,
    name: &str,
    tail: &[u8],
    teller: T,
    out: &mut S,
) -> Result<T, PassFault>
    requires { IsTail tail.now }
    ensures done { IfOk result (λ now. (notes : List Said) × (text : List ℕ) × IsRun (R.files reel.old) name.now notes
        × IsLog (text_of notes) notes × (tail_of notes ≡ tail.now) × Told T.tells teller notes text now
        × Grew (S.held out.old) (S.held out.new) text) }
    ensures begun { IfErr result (λ _. (notes : List Said) × (last : Stand) × (rest : List ℕ) × (text : List ℕ) × (now : T)
        × Leads run_begins notes last × IsFileText (R.files reel.old) name.now (text_of notes ++ rest) × Told T.tells teller notes text now
        × GrewByFront (S.held out.old) (S.held out.new) text) }
    ensures changed { result ≡ Err PassFault.Changed → ((now : T) (note : Said) → T.refuses now note → ⊥) → (before : List Said)
        → IsRun (R.files reel.old) name.now before → IsLog (text_of before) before → tail_of before ≡ tail.now
        → R.files reel.old ≡ None }
    ensures only { IfErr result (λ fault. IsOfTelling fault) }
    ensures unread { result ≡ Err PassFault.Unread → Rose (R.faults reel.old) (R.faults reel.new) }
    ensures unwritten { result ≡ Err PassFault.Unwritten → Rose (S.faults out.old) (S.faults out.new) }
    ensures readable { result ≢ Err PassFault.Unread → R.faults reel.new ≡ R.faults reel.old }
    ensures writable { result ≢ Err PassFault.Unwritten → S.faults out.new ≡ S.faults out.old }
    ensures reel { (R.faults reel.old ≤ R.faults reel.new) × (R.files reel.new ≡ R.files reel.old) }
    ensures sink { S.faults out.old ≤ S.faults out.new }
{
    one_front();
    one_reading();
    found_unlisted();
    let listed = match names_of(alloc, tail) {
        Ok(listed) => listed,
        Err(Memory) => return Err(PassFault::Memory),
    };
    let mut strict = Strict {
        listed,
        inner: teller,
    };
    let now = match scan(alloc, reel, name, &mut strict, out) {
        Ok(now) => now,
        Err(fault) => return Err(since(fault)),
    };
    if now.as_slice() != tail {
        return Err(PassFault::Changed);
    }
    Ok(strict.inner)
}

/// Writes a text that is told of the whole run, before its notes or behind them.
pub fn write_text<S: Sink>(text: &[u8], out: &mut S) -> Result<(), PassFault>
    ensures written { OnOk result (Grew (S.held out.old) (S.held out.new) text.now) }
    ensures front { OnErr result (GrewByFront (S.held out.old) (S.held out.new) text.now) }
    ensures only { IfErr result (λ fault. fault ≡ PassFault.Unwritten) }
    ensures failed { OnErr result (Rose (S.faults out.old) (S.faults out.new)) }
    ensures unfailed { OnOk result (S.faults out.new ≡ S.faults out.old) }
    ensures sink { S.faults out.old ≤ S.faults out.new }
{
    match write_all_of(out, text) {
        Ok(()) => Ok(()),
        Err(_) => Err(PassFault::Unwritten),
    }
}
