//! The walk for whether a run is of its program, and for names that its summary doesn't list.
ghost use Rattle.std.specs.Prelude.{◌≡◌, ◌≤◌, ◌++◌, ℕ, [], ◌∷◌, List, Option, None, IfErr, OnOk};
ghost use Rattle.psy_door.specs.Files.{Files};
ghost use Rattle.psy_film.specs.Causes.{IsCheckFault, IsLate, IsNoRun};
ghost use Rattle.psy_film.specs.Films.{IsLogOf};
ghost use Rattle.psy_film.specs.Sources.{foreign_by};
ghost use Rattle.psy_film.specs.Walks.{ChecksOn, LooksThrough};
ghost use Rattle.psy_log.specs.declared.note.Note.{Note as Said};
ghost use Rattle.psy_passes.specs.NameChecks.{AreNamesOf};
ghost use Rattle.psy_passes.specs.Runs.{IsRun, tail_of};

use crate::fault::FilmFault;
use crate::own::Own;
use crate::passing::pass;
use crate::source::Source;
use psy_base::Memory;
use psy_log::Note;
use psy_notes::laws::{one_front, one_reading};
use psy_passes::laws::found_unlisted;
use psy_passes::{Listed, PassFault, Tell, TellFault, names_of};
use psy_reel::Reel;
use std::alloc::Global;

/// Looks for the first note that isn't of the program, and for the first with a name that isn't listed. It tells nothing.
#[derive(Drop)]
pub struct Checking<'a, 'b, 's> {
    pub listed: &'b Listed<'a>,
    pub own: Own<'s>,
    /// How many notes there were.
    pub notes: usize,
    /// The number of the first note with a name that isn't listed, counted from 1.
    pub unlisted: Option<usize>,
}

impl<'a, 'b, 's> Checking<'a, 'b, 's> {
    // Looks whether the name of a note is listed.
    fn look(&mut self, note: &Note)
        ensures same { (self.new.listed ≡ self.old.listed) × (self.new.own ≡ self.old.own) }
        ensures looks { (notes : List Said) → LooksThrough self.old.listed.now notes self.old.notes self.old.unlisted
            → LooksThrough self.old.listed.now (notes ++ note.now ∷ []) self.new.notes self.new.unlisted }
    {
        self.notes = self.notes.saturating_add(1);
        if self.unlisted.is_none() && !self.listed.has(note) {
            self.unlisted = Some(self.notes);
        }
    }
}

impl<'a, 'b, 's> Tell for Checking<'a, 'b, 's> {
    ghost tells = { ChecksOn };

    ghost refuses = { λ _ _. ⊥ };

    fn tell(&mut self, _text: &mut Vec<u8>, note: &Note<'_>) -> Result<(), TellFault> {
        self.own.add(note);
        self.look(note);
        Ok(())
    }
}

/// Looks whether the run in the file with this name, whose end and summary have these lines, is of the program, where one is given, and whether its summary
/// lists each name that it has.
pub fn check<R: Reel>(
    alloc: Global,
    reel: &mut R,
    name: &str,
    tail: &[u8],
    source: Option<Source>,
) -> Result<(), FilmFault>
    requires { (notes : List Said) × IsRun (R.files reel.old) name.now notes × (tail.now ≡ tail_of notes) }
    ensures own { OnOk result ((notes : List Said) × IsLogOf (R.files reel.old) name.now tail.now notes × (foreign_by source.entry notes ≡ None)) }
    ensures cause { IfErr result (λ fault. IsCheckFault (R.files reel.old) name.now source.entry (R.faults reel.old) (R.faults reel.new) fault) }
    ensures read { OnOk result (R.faults reel.new ≡ R.faults reel.old) }
    ensures reel { (R.faults reel.old ≤ R.faults reel.new) × (R.files reel.new ≡ R.files reel.old) }
{
    let listed = match names_of(alloc, tail) {
        Ok(listed) => listed,
        Err(Memory) => return Err(FilmFault::Run(PassFault::Memory)),
    };
    check_names(alloc, reel, name, tail, &listed, source)
}

// The same by the names that the summary lists.
fn check_names<R: Reel>(
    alloc: Global,
    reel: &mut R,
    name: &str,
    tail: &[u8],
    listed: &Listed,
    source: Option<Source>,
) -> Result<(), FilmFault>
    requires run { (notes : List Said) × IsRun (R.files reel.old) name.now notes × (tail.now ≡ tail_of notes) }
    requires names { AreNamesOf listed.now tail.now }
    ensures own { OnOk result ((notes : List Said) × IsLogOf (R.files reel.old) name.now tail.now notes × (foreign_by source.entry notes ≡ None)) }
    ensures cause { IfErr result (λ fault. IsCheckFault (R.files reel.old) name.now source.entry (R.faults reel.old) (R.faults reel.new) fault) }
    ensures read { OnOk result (R.faults reel.new ≡ R.faults reel.old) }
    ensures reel { (R.faults reel.old ≤ R.faults reel.new) × (R.files reel.new ≡ R.files reel.old) }
{
    one_front();
    found_unlisted();
    let mut checking = Checking {
        listed,
        own: Own::of(source),
        notes: 0,
        unlisted: None,
    };
    let now = match pass(alloc, reel, name, &mut checking) {
        Ok(now) => now,
        Err(fault) => return Err(FilmFault::Run(since(fault))),
    };
    if now.as_slice() != tail {
        return Err(FilmFault::Run(PassFault::Changed));
    }
    if let Some(line) = checking.own.first_foreign() {
        return Err(FilmFault::Foreign { line });
    }
    match checking.unlisted {
        Some(line) => Err(FilmFault::Run(PassFault::Unlisted { line })),
        None => Ok(()),
    }
}

// Why a file isn't read that was a run before: where it is none now, it changed.
fn since(fault: PassFault) -> PassFault
    ensures { (files : Option Files) (name : List ℕ) (before after : ℕ) (notes : List Said) → IsRun files name notes → IsNoRun files name before after fault
        → IsLate files before after result }
{
    one_front();
    one_reading();
    match fault {
        PassFault::Line { .. } => PassFault::Changed,
        PassFault::Many => PassFault::Changed,
        other => other,
    }
}
