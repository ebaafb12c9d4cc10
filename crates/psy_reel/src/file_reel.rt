//! The files of the system, piece by piece.
ghost use Rattle.std.specs.Prelude.{◌≡◌, ◌≢◌, ◌+◌, ◌≤◌, None, [], ⊤, length, IfOk, IfSome, OnOk, OnErr};
ghost use Rattle.psy_door.specs.Faults.{Rose};

use crate::reel::{BeginFault, Reel};
use psy_door::{Failed, FetchFault, FileShelf, Shelf};
use std::alloc::Global;
use std::fs;
use std::io::Read;
use std::marker::Model;
use std::rt::Files;

/// The files of the system, by path. It tells no content, and counts a fault at every error of the system.
#[derive(Drop)]
pub struct FileReel<'a, R: Files> {
    shelf: FileShelf<'a, R>,
    files: &'a R,
    begun: Option<R::File>,
    faults: u64,
}

impl<'a, R: Files> Model for FileReel<'a, R> {
    ghost use Rattle.psy_reel.specs.States.{FileReelState};

    ghost Value = { FileReelState };

    ghost view = { λ r. record { shelf = r.shelf; faults = r.faults } };
}

impl<'a, R: Files> FileReel<'a, R> {
    /// A reel over the files that this runtime reaches. It takes no memory.
    pub fn new(files: &'a R) -> FileReel<'a, R>
        ensures { result ≡ record { shelf = record { faults = 0; failed_name = []; taken = 0 }; faults = 0 } }
    {
        FileReel {
            shelf: FileShelf::new(files),
            files,
            begun: None,
            faults: 0,
        }
    }
}

impl<'a, R: Files> Shelf for FileReel<'a, R> {
    ghost files = { λ _. None };

    ghost faults = { λ r. r.shelf.faults + r.faults };

    ghost failed_name = { λ r. r.shelf.failed_name };

    ghost taken = { λ r. r.shelf.taken };

    fn fetch_most(
        &mut self,
        alloc: Global,
        name: &str,
        most: usize,
    ) -> Result<Vec<u8>, FetchFault> {
        self.shelf.fetch_most(alloc, name, most)
    }
}

impl<'a, R: Files> Reel for FileReel<'a, R> {
    ghost left = { λ _. [] };

    fn begin(&mut self, _alloc: Global, name: &str) -> Result<(), BeginFault>
        ensures counted { self.old.shelf.faults + self.old.faults ≤ self.new.shelf.faults + self.new.faults }
        // Nothing is told of the bytes.
        ensures untold { OnOk result ⊤ }
        ensures failed { result ≡ Err BeginFault.Failed
            → Rose (self.old.shelf.faults + self.old.faults) (self.new.shelf.faults + self.new.faults) }
        ensures unfailed { result ≢ Err BeginFault.Failed
            → self.new.shelf.faults + self.new.faults ≡ self.old.shelf.faults + self.old.faults }
    {
        match fs::open(self.files, name) {
            Ok(file) => {
                self.begun = Some(file);
                Ok(())
            }
            Err(_) => {
                self.faults = self.faults.saturating_add(1);
                Err(BeginFault::Failed)
            }
        }
    }

    fn next_piece(&mut self, piece: &mut [u8]) -> Result<usize, Failed>
        ensures counted { self.old.shelf.faults + self.old.faults ≤ self.new.shelf.faults + self.new.faults }
        ensures most { IfOk result (λ n. n ≤ length piece.old) }
        // Nothing is told of the bytes.
        ensures untold { IfOk result (λ _. ⊤) }
        ensures untold_end { IfOk result (λ n. n ≡ 0 → ⊤) }
        ensures failed { OnErr result (Rose (self.old.shelf.faults + self.old.faults) (self.new.shelf.faults + self.new.faults)) }
        ensures unfailed { OnOk result (self.new.shelf.faults + self.new.faults ≡ self.old.shelf.faults + self.old.faults) }
    {
        match read_piece(&mut self.begun, piece) {
            Some(n) => Ok(n),
            None => {
                self.faults = self.faults.saturating_add(1);
                Err(Failed)
            }
        }
    }
}

// Reads from a file that was begun, and says how many bytes came; None where that failed, or no file was begun.
fn read_piece<F: Read>(begun: &mut Option<F>, piece: &mut [u8]) -> Option<usize>
    ensures { IfSome result (λ n. n ≤ length piece.old) }
{
    match begun {
        Some(file) => file.read(piece).ok(),
        None => None,
    }
}
