//! A run that is read piece by piece.
ghost use Rattle.std.specs.Prelude.{◌≡◌, ◌≢◌, ℕ, true, false, ◌<◌, ◌≤◌, List, [], ◌++◌, length, IfOk, IfErr, IsTrue, OnOk};
ghost use Rattle.psy_door.specs.Faults.{Rose};
ghost use Rattle.psy_door.specs.Files.{WhereTold, bytes_under};
ghost use Rattle.psy_door.specs.Growth.{Grew};
ghost use Rattle.psy_log.specs.declared.note.Note.{Note as Said};
ghost use Rattle.psy_passes.specs.Progress.{IsUnfinished};
ghost use Rattle.psy_passes.specs.Runs.{Halts, IsOutside, IsRun, tail_of};
ghost use Rattle.psy_notes.specs.Stands.{may_end};
ghost use Rattle.psy_passes.specs.Telling.{Told};

use crate::progress::Progress;
use crate::scan_fault::ScanFault;
use crate::tell::Tell;
use psy_door::Sink;
use psy_reel::{BeginFault, Reel};
use std::alloc::Global;

/// Lines of a run.
pub const LINES: usize = 1_000_000_000;

// So many bytes are asked for together.
const PIECE_BYTES: usize = 32_768;

/// Reads the run in the file with this name from its beginning, tells of each note, writes what is told, and answers the lines of the run's
/// end and summary.
pub fn scan<R: Reel, T: Tell, S: Sink>(
    alloc: Global,
    reel: &mut R,
    name: &str,
    tell: &mut T,
    out: &mut S,
) -> Result<Vec<u8>, ScanFault>
    ensures done { IfOk result (λ tail. (notes : List Said) × (text : List ℕ) × IsRun (R.files reel.old) name.now notes
        × Told T.tells tell.old notes text tell.new × (tail.items ≡ tail_of notes) × Grew (S.held out.old) (S.held out.new) text) }
    ensures halts { IfErr result (λ fault. (whole : List ℕ) × WhereTold (R.files reel.old) (λ held. bytes_under held name.now ≡ whole)
        × Halts T.tells T.refuses tell.old (S.held out.old) (S.held out.new) whole fault) }
    ensures unread { result ≡ Err ScanFault.Unread → Rose (R.faults reel.old) (R.faults reel.new) }
    ensures unwritten { result ≡ Err ScanFault.Unwritten → Rose (S.faults out.old) (S.faults out.new) }
    ensures readable { result ≢ Err ScanFault.Unread → R.faults reel.new ≡ R.faults reel.old }
    ensures writable { result ≢ Err ScanFault.Unwritten → S.faults out.new ≡ S.faults out.old }
    ensures reel { (R.faults reel.old ≤ R.faults reel.new) × (R.files reel.new ≡ R.files reel.old) }
    ensures sink { S.faults out.old ≤ S.faults out.new }
{
    if let Err(fault) = begin(alloc, reel, name) {
        return Err(fault);
    }
    let mut progress = Progress::new(alloc);
    let mut bytes = Vec::new(alloc);
    'reading: loop {
        match fill(reel, &mut bytes) {
            Ok(true) => {}
            Ok(false) => return finish(progress, bytes.as_slice(), out),
            Err(fault) => return Err(fault),
        }
        let left = match progress.take_lines(bytes.as_slice(), tell, out) {
            Ok(left) => left,
            Err(fault) => return Err(fault),
        };
        bytes = match copied(alloc, left) {
            Ok(left) => left,
            Err(fault) => return Err(fault),
        };
    }
}

// Writes what waits, where no bytes are left and the text may end.
#[tactic(auto, using(crate::proofs::lemmas::Growth::grew_nothing))]
fn finish<S: Sink>(progress: Progress, left: &[u8], out: &mut S) -> Result<Vec<u8>, ScanFault>
    requires { progress.lines ≤ LINES }
    ensures done { IfOk result (λ tail. (left.now ≡ []) × IsTrue (may_end progress.stand) × (tail.items ≡ progress.tail.items)
        × Grew (S.held out.old) (S.held out.new) progress.text.items) }
    ensures ends { IfErr result (λ fault. IsUnfinished (S.held out.old) (S.held out.new) left.now progress fault) }
    ensures unwritten { result ≡ Err ScanFault.Unwritten → Rose (S.faults out.old) (S.faults out.new) }
    ensures writable { result ≢ Err ScanFault.Unwritten → S.faults out.new ≡ S.faults out.old }
    ensures sink { S.faults out.old ≤ S.faults out.new }
{
    let mut progress = progress;
    if !left.is_empty() || !progress.stand.may_end() {
        return Err(ScanFault::Line {
            line: progress.lines + 1,
        });
    }
    if let Err(fault) = progress.write(out) {
        return Err(fault);
    }
    Ok(progress.tail)
}

// Goes to the beginning of the file with this name.
fn begin<R: Reel>(alloc: Global, reel: &mut R, name: &str) -> Result<(), ScanFault>
    ensures begun { OnOk result (WhereTold (R.files reel.old) (λ held. bytes_under held name.now ≡ R.left reel.new)) }
    ensures only { IfErr result (λ fault. IsOutside fault) }
    ensures unread { result ≡ Err ScanFault.Unread → Rose (R.faults reel.old) (R.faults reel.new) }
    ensures readable { result ≢ Err ScanFault.Unread → R.faults reel.new ≡ R.faults reel.old }
    ensures reel { (R.faults reel.old ≤ R.faults reel.new) × (R.files reel.new ≡ R.files reel.old) }
{
    match reel.begin(alloc, name) {
        Ok(()) => Ok(()),
        Err(BeginFault::Failed) => Err(ScanFault::Unread),
        Err(BeginFault::Memory) => Err(ScanFault::Memory),
    }
}

// Adds the next piece, and says whether there was one.
fn fill<R: Reel>(reel: &mut R, bytes: &mut Vec<u8>) -> Result<bool, ScanFault>
    ensures next { result ≡ Ok true → (piece : List ℕ) × (bytes.new.items ≡ bytes.old.items ++ piece) × (0 < length piece)
        × WhereTold (R.files reel.old) (λ _. R.left reel.old ≡ piece ++ R.left reel.new) }
    ensures ended { result ≡ Ok false → (bytes.new.items ≡ bytes.old.items) × WhereTold (R.files reel.old) (λ _. R.left reel.old ≡ []) }
    ensures only { IfErr result (λ fault. IsOutside fault) }
    ensures unread { result ≡ Err ScanFault.Unread → Rose (R.faults reel.old) (R.faults reel.new) }
    ensures readable { result ≢ Err ScanFault.Unread → R.faults reel.new ≡ R.faults reel.old }
    ensures reel { (R.faults reel.old ≤ R.faults reel.new) × (R.files reel.new ≡ R.files reel.old) }
{
    let mut piece = [0u8; PIECE_BYTES];
    let Ok(n) = reel.next_piece(&mut piece) else {
        return Err(ScanFault::Unread);
    };
    if n == 0 {
        return Ok(false);
    }
    if bytes.extend_from_slice(&piece[..n]).is_err() {
        return Err(ScanFault::Memory);
    }
    Ok(true)
}

// A copy of bytes.
fn copied(alloc: Global, bytes: &[u8]) -> Result<Vec<u8>, ScanFault>
    ensures copy { IfOk result (λ copy. copy.items ≡ bytes.now) }
    ensures only { IfErr result (λ fault. fault ≡ ScanFault.Memory) }
{
    match Vec::from_slice(alloc, bytes) {
        Ok(copy) => Ok(copy),
        Err(_) => Err(ScanFault::Memory),
    }
}
