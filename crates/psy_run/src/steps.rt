//! The steps from a program's file to the program.
ghost use Rattle.std.specs.Prelude.{ℕ, ◌≡◌, ◌≤◌, List, length, IfOk, IfErr, OnOk};
ghost use Rattle.psy_base.specs.declared.limits.TheConstants.{FILE_BYTES};
ghost use Rattle.psy_meaning.specs.Units.{IsOfText};
ghost use Rattle.psy_plan.specs.Programs.{IsProgram};
ghost use Rattle.psy_run.specs.Answer.{compiling, translating};
ghost use Rattle.psy_run.specs.Outcome.{Halts, TookLimit, Unfailed};
ghost use Rattle.psy_run.specs.Steps.{reading};

use crate::refusal::{File, Refusal, Stop, stopped};
use psy_door::{FetchFault, Shelf};
use psy_tree::Unit;
use std::alloc::Global;

/// The bytes of a file.
pub fn read<F: Shelf>(alloc: Global, shelf: &mut F, file: File, name: &str) -> Result<Vec<u8>, Stop>
    ensures ok { IfOk result (λ bytes. (reading (F.files shelf.old) file name.now).gives bytes.items) }
    ensures err { IfErr result (Halts (reading (F.files shelf.old) file name.now) (F.failed_name shelf.new) (F.faults shelf.old) (F.faults shelf.new)) }
    ensures long { IfErr result (TookLimit (F.taken shelf.new)) }
    ensures unfailed { OnOk result (F.faults shelf.new ≡ F.faults shelf.old) }
    ensures unread { IfErr result (Unfailed (F.faults shelf.old) (F.faults shelf.new)) }
    ensures shelf { (F.faults shelf.old ≤ F.faults shelf.new) × (F.files shelf.new ≡ F.files shelf.old) }
{
    match shelf.fetch(alloc, name) {
        Ok(bytes) => Ok(bytes),
        Err(FetchFault::Failed) => Err(Stop::Unread(file)),
        Err(FetchFault::TooLong) => Err(Stop::Refused(Refusal::TooLong(file))),
        Err(FetchFault::Memory) => Err(Stop::Memory),
    }
}

/// The program of a text of at most 262,144 bytes.
pub fn translate(alloc: Global, bytes: &Vec<u8>) -> Result<Unit, Stop>
    requires { length bytes.now.items ≤ FILE_BYTES }
    ensures ok { IfOk result (λ unit. (translating bytes.now.items).gives unit) }
    ensures text { IfOk result IsOfText }
    ensures err { (failed : List ℕ) (before after : ℕ) → IfErr result (Halts (translating bytes.now.items) failed before after) }
{
    match psy_plan::compile(alloc, bytes.as_slice()) {
        Ok(unit) => Ok(unit),
        Err(stop) => Err(stopped(stop)),
    }
}

/// The program in the file with this name.
pub fn compile<F: Shelf>(alloc: Global, shelf: &mut F, name: &str) -> Result<Unit, Stop>
    ensures ok { IfOk result (λ unit. (compiling (F.files shelf.old) name.now).gives unit) }
    ensures text { IfOk result IsOfText }
    ensures program { IfOk result (λ unit. (bytes : List ℕ) × (length bytes ≤ FILE_BYTES) × IsProgram bytes unit) }
    ensures err { IfErr result (Halts (compiling (F.files shelf.old) name.now) (F.failed_name shelf.new) (F.faults shelf.old) (F.faults shelf.new)) }
    ensures long { IfErr result (TookLimit (F.taken shelf.new)) }
    ensures unfailed { OnOk result (F.faults shelf.new ≡ F.faults shelf.old) }
    ensures unread { IfErr result (Unfailed (F.faults shelf.old) (F.faults shelf.new)) }
    ensures shelf { (F.faults shelf.old ≤ F.faults shelf.new) × (F.files shelf.new ≡ F.files shelf.old) }
{
    let bytes = read(alloc, shelf, File::Program, name)?;
    translate(alloc, &bytes)
}
