//! The files of the system.
ghost use Rattle.std.specs.Prelude.{◌≡◌, ◌≢◌, ◌+◌, ◌<◌, ◌≤◌, None, [], ⊤, vec_len, IfOk, OnOk};
ghost use Rattle.psy_door.specs.Faults.{Rose};
ghost use Rattle.psy_door.specs.States.{counted_up};

use crate::shelf::{FetchFault, Shelf};
use psy_base::Text;
use std::alloc::{AllocError, Global};
use std::fs;
use std::io::{self, Read};
use std::marker::Model;
use std::rt::Files;

const BLOCK: usize = 4096;

/// The files of the system, by path. It tells no content, and counts a fault at every error of the
/// system.
#[derive(Drop)]
pub struct FileShelf<'a, R> {
    files: &'a R,
    faults: u64,
    failed_name: Option<Text>,
    taken: usize,
}

impl<'a, R> Model for FileShelf<'a, R> {
    ghost use Rattle.std.specs.Prelude.{unwrap_or, []};
    ghost use Rattle.psy_door.specs.States.{FileShelfState};

    ghost Value = { FileShelfState };

    ghost view = { λ s. record { faults = s.faults; failed_name = unwrap_or s.failed_name []; taken = s.taken } };
}

impl<'a, R: Files> FileShelf<'a, R> {
    /// A shelf over the files that this runtime reaches. It takes no memory.
    pub fn new(files: &'a R) -> FileShelf<'a, R>
        ensures { result ≡ record { faults = 0; failed_name = []; taken = 0 } }
    {
        FileShelf {
            files,
            faults: 0,
            failed_name: None,
            taken: 0,
        }
    }
}

// What ended the reading of a file, other than its end.
#[derive(Drop)]
enum ReadFault {
    System(io::Error),
    Memory(AllocError),
}

// Adds the bytes of the file, at most one more than it may have, and counts those that it takes.
fn read_some<F: Read>(
    file: &mut F,
    bytes: &mut Vec<u8>,
    taken: &mut usize,
    most: usize,
) -> Result<(), ReadFault>
    requires empty { vec_len bytes.old ≡ 0 }
    requires none { taken.old ≡ 0 }
    ensures most { taken.new ≤ most + 1 }
    ensures all { OnOk result (vec_len bytes.new ≡ taken.new) }
{
    let mut block = [0u8; BLOCK];
    'filling: while bytes.len() <= most {
        let asked = (BLOCK - 1).min(most - bytes.len()) + 1;
        let n = file.read(&mut block[..asked]).map_err(ReadFault::System)?;
        if n == 0 {
            return Ok(());
        }
        *taken += n;
        bytes
            .extend_from_slice(&block[..n])
            .map_err(ReadFault::Memory)?;
    }
    Ok(())
}

impl<'a, R: Files> Shelf for FileShelf<'a, R> {
    ghost files = { λ _. None };

    ghost faults = { λ s. s.faults };

    ghost failed_name = { λ s. s.failed_name };

    ghost taken = { λ s. s.taken };

    fn fetch_most(&mut self, alloc: Global, name: &str, most: usize) -> Result<Vec<u8>, FetchFault>
        ensures counted { self.old.faults ≤ self.new.faults }
        ensures within { IfOk result (λ bytes. vec_len bytes ≤ most) }
        ensures took { IfOk result (λ bytes. self.new.taken ≡ vec_len bytes) }
        // Nothing is told of the bytes.
        ensures untold { IfOk result (λ _. ⊤) }
        ensures failed { result ≡ Err FetchFault.Failed → Rose self.old.faults self.new.faults }
        ensures one_more { result ≡ Err FetchFault.Failed → self.new.faults ≡ counted_up self.old.faults }
        ensures same_faults { result ≢ Err FetchFault.Failed → self.new.faults ≡ self.old.faults }
        ensures named { result ≡ Err FetchFault.Failed → self.new.failed_name ≡ name.now }
        ensures same_name { result ≢ Err FetchFault.Failed → self.new.failed_name ≡ self.old.failed_name }
        ensures too_long { result ≡ Err FetchFault.TooLong → self.new.taken ≡ most + 1 }
        ensures most { self.new.taken ≤ most + 1 }
    {
        self.taken = 0;
        let asked = Text::from_bytes(alloc, name.as_bytes())?;
        let mut bytes = Vec::new(alloc);
        let mut taken = 0;
        let outcome = match fs::open(self.files, name) {
            Ok(mut file) => read_some(&mut file, &mut bytes, &mut taken, most),
            Err(error) => Err(ReadFault::System(error)),
        };
        self.taken = taken;
        match outcome {
            Err(ReadFault::System(_)) => {
                self.faults = self.faults.saturating_add(1);
                self.failed_name = Some(asked);
                Err(FetchFault::Failed)
            }
            Err(ReadFault::Memory(_)) => Err(FetchFault::Memory),
            Ok(()) if bytes.len() > most => Err(FetchFault::TooLong),
            Ok(()) => Ok(bytes),
        }
    }
}
