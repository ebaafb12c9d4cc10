//! How far a run was read.
ghost use Rattle.std.specs.Prelude.{◌≡◌, ◌≢◌, ℕ, ◌+◌, ◌<◌, ◌≤◌, ◌⊎◌, List, [], ◌∷◌, ◌++◌, Option, length, take, IfOk, IfErr, OnOk, OnErr};
ghost use Rattle.psy_door.specs.Faults.{Rose};
ghost use Rattle.psy_door.specs.Growth.{Grew, GrewByFront};
ghost use Rattle.psy_log.specs.declared.note.Note.{Note as Said};
ghost use Rattle.psy_log.specs.Forms.{line_of};
ghost use Rattle.psy_notes.specs.Fronts.{NoLine};
ghost use Rattle.psy_notes.specs.Texts.{Steps, text_of};
ghost use Rattle.psy_notes.specs.declared.line_front.TheConstants.{NOTE_BYTES};
ghost use Rattle.psy_passes.specs.Progress.{IsUntaken, StandsFor, WritesOn};
ghost use Rattle.psy_passes.specs.Runs.{Halts, tail_line};

use crate::reading::LINES;
use crate::scan_fault::ScanFault;
use crate::tell::{Tell, TellFault};
use psy_door::Sink;
use psy_log::{Note, write_all_of};
use psy_notes::{Front, Stand, read_front};
use std::alloc::{AllocError, Global};

// So many bytes of what is told are written together.
const TEXT_BYTES: usize = 32_768;

/// How far a run was read.
#[derive(Drop)]
pub struct Progress {
    /// Where the text stands.
    pub stand: Stand,
    /// How many lines were read.
    pub lines: usize,
    /// The lines of its end and its summary.
    pub tail: Vec<u8>,
    /// What was told, and isn't written yet.
    pub text: Vec<u8>,
}

impl Progress {
    /// Nothing was read. It takes no memory.
    pub fn new(alloc: Global) -> Progress
        ensures stand { result.stand ≡ Stand.RUN }
        ensures lines { result.lines ≡ 0 }
        ensures tail { result.tail.items ≡ [] }
        ensures text { result.text.items ≡ [] }
    {
        Progress {
            stand: Stand::RUN,
            lines: 0,
            tail: Vec::new(alloc),
            text: Vec::new(alloc),
        }
    }

    /// Reads the lines of notes at the front of these bytes, tells of them, and answers the bytes that are left.
    pub fn take_lines<'b, T: Tell, S: Sink>(
        &mut self,
        bytes: &'b [u8],
        tell: &mut T,
        out: &mut S,
    ) -> Result<&'b [u8], ScanFault>
        requires { self.old.lines ≤ LINES }
        ensures taken { IfOk result (λ left. (old : T) (held : Option (List ℕ)) (notes : List Said) (text : List ℕ)
            → StandsFor T.tells old held (S.held out.old) notes text tell.old self.old → (after : List Said) × (said : List ℕ)
            × StandsFor T.tells old held (S.held out.new) after said tell.new self.new × (text_of after ++ left.now ≡ text_of notes ++ bytes.now)) }
        ensures open_end { IfOk result (λ left. left.now ≢ [] → NoLine self.new.stand left.now) }
        ensures small { IfOk result (λ left. length left.now < NOTE_BYTES) }
        ensures few { OnOk result (self.new.lines ≤ LINES) }
        ensures on { IfOk result (λ left. ((left.now ≡ bytes.now) × (self.new.lines ≡ self.old.lines)) ⊎ (self.old.lines < self.new.lines)) }
        ensures halts { IfErr result (λ fault. (old : T) (held : Option (List ℕ)) (notes : List Said) (text : List ℕ)
            → StandsFor T.tells old held (S.held out.old) notes text tell.old self.old
            → (more : List ℕ) → Halts T.tells T.refuses old held (S.held out.new) (text_of notes ++ (bytes.now ++ more)) fault) }
        ensures unwritten { result ≡ Err ScanFault.Unwritten → Rose (S.faults out.old) (S.faults out.new) }
        ensures unfailed { result ≢ Err ScanFault.Unwritten → S.faults out.new ≡ S.faults out.old }
        ensures readable { result ≢ Err ScanFault.Unread }
        ensures sink { S.faults out.old ≤ S.faults out.new }
    {
        let mut rest = bytes;
        'taking: while !rest.is_empty() {
            if self.lines == LINES {
                return Err(ScanFault::Many);
            }
            match read_front(self.stand, rest) {
                Front::Line {
                    note,
                    stand,
                    rest: more,
                } => {
                    let line = &rest[..rest.len() - more.len()];
                    if let Err(fault) = self.take(&note, stand, line, tell) {
                        return Err(fault);
                    }
                    if let Err(fault) = self.write_long(out) {
                        return Err(fault);
                    }
                    rest = more;
                }
                Front::Part => return Ok(rest),
                Front::Broken => {
                    return Err(ScanFault::Line {
                        line: self.lines + 1,
                    });
                }
            }
        }
        Ok(rest)
    }

    // Tells of a note whose line leads to a stand.
    fn take<T: Tell>(
        &mut self,
        note: &Note<'_>,
        stand: Stand,
        line: &[u8],
        tell: &mut T,
    ) -> Result<(), ScanFault>
        requires { self.old.lines < LINES }
        ensures taken { OnOk result ((old : T) (held now_held : Option (List ℕ)) (notes : List Said) (text : List ℕ)
            → StandsFor T.tells old held now_held notes text tell.old self.old → Steps self.old.stand note.now stand → line.now ≡ line_of note.now
            → (said : List ℕ) × StandsFor T.tells old held now_held (notes ++ note.now ∷ []) said tell.new self.new) }
        ensures counted { OnOk result (self.new.lines ≡ self.old.lines + 1) }
        ensures stand { OnOk result (self.new.stand ≡ stand) }
        ensures untaken { IfErr result (λ fault. IsUntaken T.refuses tell.old note.now self.old.lines fault) }
    {
        match tell.tell(&mut self.text, note) {
            Ok(()) => {}
            Err(TellFault::Refused) => {
                return Err(ScanFault::Refused {
                    line: self.lines + 1,
                });
            }
            Err(TellFault::Memory) => return Err(ScanFault::Memory),
        }
        if let Err(_) = keep(&mut self.tail, note, line) {
            return Err(ScanFault::Memory);
        }
        self.stand = stand;
        self.lines += 1;
        Ok(())
    }

    // Writes what waits, where that is long.
    #[tactic(auto, using(crate::proofs::Kept::writes_nothing))]
    fn write_long<S: Sink>(&mut self, out: &mut S) -> Result<(), ScanFault>
        ensures written { OnOk result (WritesOn (S.held out.old) (S.held out.new) self.old self.new) }
        ensures cut { OnErr result (GrewByFront (S.held out.old) (S.held out.new) self.old.text.items) }
        ensures only { IfErr result (λ fault. fault ≡ ScanFault.Unwritten) }
        ensures failed { OnErr result (Rose (S.faults out.old) (S.faults out.new)) }
        ensures unfailed { OnOk result (S.faults out.new ≡ S.faults out.old) }
        ensures sink { S.faults out.old ≤ S.faults out.new }
    {
        if self.text.len() < TEXT_BYTES {
            return Ok(());
        }
        self.write(out)
    }

    /// Writes what waits.
    pub fn write<S: Sink>(&mut self, out: &mut S) -> Result<(), ScanFault>
        ensures written { OnOk result (WritesOn (S.held out.old) (S.held out.new) self.old self.new) }
        ensures all { OnOk result (self.new.text.items ≡ []) }
        ensures cut { OnErr result (GrewByFront (S.held out.old) (S.held out.new) self.old.text.items) }
        ensures only { IfErr result (λ fault. fault ≡ ScanFault.Unwritten) }
        ensures failed { OnErr result (Rose (S.faults out.old) (S.faults out.new)) }
        ensures unfailed { OnOk result (S.faults out.new ≡ S.faults out.old) }
        ensures sink { S.faults out.old ≤ S.faults out.new }
    {
        match write_all_of(out, self.text.as_slice()) {
            Ok(()) => {
                self.text.clear();
                Ok(())
            }
            Err(_) => Err(ScanFault::Unwritten),
        }
    }
}

// Keeps the line of the end or of the summary.
fn keep(tail: &mut Vec<u8>, note: &Note<'_>, line: &[u8]) -> Result<(), AllocError>
    ensures { OnOk result (line.now ≡ line_of note.now → tail.new.items ≡ tail.old.items ++ tail_line note.now) }
{
    match note {
        Note::StopOverrun { .. }
        | Note::StopTrap { .. }
        | Note::Value { .. }
        | Note::Message { .. } => Ok(()),
        _ => tail.extend_from_slice(line),
    }
}
