//! Passes over a run of which nothing is known yet.
ghost use Rattle.std.specs.Prelude.{◌≡◌, ◌≤◌, ℕ, List, None, IfErr, IfOk, OnOk};
ghost use Rattle.psy_film.specs.Causes.{IsNoRun, IsOther};
ghost use Rattle.psy_film.specs.Films.{IsRunBy};
ghost use Rattle.psy_log.specs.declared.note.Note.{Note as Said};
ghost use Rattle.psy_passes.specs.Runs.{IsRun, tail_of};
ghost use Rattle.psy_passes.specs.Telling.{Told};

use crate::fault::FilmFault;
use crate::matching::Matching;
use crate::own::Own;
use crate::source::Source;
use psy_passes::{Nowhere, PassFault, ScanFault, Tell, scan};
use psy_reel::Reel;
use std::alloc::Global;

/// Tells a teller that refuses no note of each note of the run in the file with this name, and answers the lines of its end and summary.
pub fn pass<R: Reel, T: Tell>(
    alloc: Global,
    reel: &mut R,
    name: &str,
    teller: &mut T,
) -> Result<Vec<u8>, PassFault>
    requires { (now : T) (note : Said) → T.refuses now note → ⊥ }
    ensures done { IfOk result (λ tail. (notes : List Said) × (text : List ℕ) × IsRun (R.files reel.old) name.now notes
        × Told T.tells teller.old notes text teller.new × (tail.items ≡ tail_of notes)) }
    ensures cause { IfErr result (λ fault. IsNoRun (R.files reel.old) name.now (R.faults reel.old) (R.faults reel.new) fault) }
    ensures read { OnOk result (R.faults reel.new ≡ R.faults reel.old) }
    ensures reel { (R.faults reel.old ≤ R.faults reel.new) × (R.files reel.new ≡ R.files reel.old) }
{
    match scan(alloc, reel, name, teller, &mut Nowhere) {
        Ok(tail) => Ok(tail),
        Err(ScanFault::Line { line }) => Err(PassFault::Line { line }),
        Err(ScanFault::Many) => Err(PassFault::Many),
        Err(ScanFault::Unread) => Err(PassFault::Unread),
        Err(ScanFault::Refused { .. } | ScanFault::Unwritten | ScanFault::Memory) => {
            Err(PassFault::Memory)
        }
    }
}

/// The lines of the end and of the summary of the run in the file with this name.
pub fn tail_of<R: Reel>(alloc: Global, reel: &mut R, name: &str) -> Result<Vec<u8>, PassFault>
    ensures done { IfOk result (λ tail. (notes : List Said) × IsRun (R.files reel.old) name.now notes × (tail.items ≡ tail_of notes)) }
    ensures cause { IfErr result (λ fault. IsNoRun (R.files reel.old) name.now (R.faults reel.old) (R.faults reel.new) fault) }
    ensures read { OnOk result (R.faults reel.new ≡ R.faults reel.old) }
    ensures reel { (R.faults reel.old ≤ R.faults reel.new) × (R.files reel.new ≡ R.files reel.old) }
{
    let mut matching = Matching { own: Own::of(None) };
    pass(alloc, reel, name, &mut matching)
}

/// Is the file with this name a run, and of this program, where one is given? It is read once, piece by piece, in memory that doesn't grow with its length.
pub fn match_run<R: Reel>(
    alloc: Global,
    reel: &mut R,
    name: &str,
    source: Option<Source>,
) -> Result<(), FilmFault>
    ensures own { OnOk result ((notes : List Said) × IsRunBy (R.files reel.old) name.now source.entry notes) }
    ensures cause { IfErr result (λ fault. IsOther (R.files reel.old) name.now source.entry (R.faults reel.old) (R.faults reel.new) fault) }
    ensures read { OnOk result (R.faults reel.new ≡ R.faults reel.old) }
    ensures reel { (R.faults reel.old ≤ R.faults reel.new) × (R.files reel.new ≡ R.files reel.old) }
{
    let mut matching = Matching {
        own: Own::of(source),
    };
    if let Err(fault) = pass(alloc, reel, name, &mut matching) {
        return Err(FilmFault::Run(fault));
    }
    match matching.own.first_foreign() {
        Some(line) => Err(FilmFault::Foreign { line }),
        None => Ok(()),
    }
}
