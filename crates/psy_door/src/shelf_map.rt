//! Files in memory, some of whose calls fail.
ghost use Rattle.std.specs.Prelude.{◌≡◌, ◌≢◌, ◌+◌, ◌<◌, ◌≤◌, Some, [], map, length, vec_len, IfOk, IsErr};
ghost use Rattle.psy_door.specs.Files.{files_of, bytes_under};
ghost use Rattle.psy_door.specs.States.{FetchFails, counted_up};

use crate::shelf::{FetchFault, Shelf};
use crate::{counts, files};
use psy_base::Text;
use std::alloc::Global;
use std::marker::Model;

/// Files in memory. Calls with listed numbers, and calls for a name that it doesn't hold, fail.
#[derive(Debug, Drop)]
pub struct ShelfMap {
    files: Vec<(Text, Vec<u8>)>,
    fails: Vec<u32>,
    calls: u64,
    faults: u64,
    failed_name: Option<Text>,
    taken: usize,
}

impl Model for ShelfMap {
    ghost use Rattle.std.specs.Prelude.{map, unwrap_or, []};
    ghost use Rattle.psy_door.specs.States.{ShelfState};

    ghost Value = { ShelfState };

    ghost view = { λ s. record {
      files = map (λ p. (p.0, p.1.items)) s.files.items;
      fails = s.fails.items;
      calls = s.calls;
      faults = s.faults;
      failed_name = unwrap_or s.failed_name [];
      taken = s.taken;
    } };
}

impl ShelfMap {
    /// A shelf with these files, of which the calls with the numbers in `fails`, counted from 0, fail.
    /// Of two files with one name the first stands. It takes no memory.
    pub fn new(files: Vec<(Text, Vec<u8>)>, fails: Vec<u32>) -> ShelfMap
        ensures { result ≡ record {
          files = map (λ p. (p.0, p.1.items)) files.items;
          fails = fails.items;
          calls = 0;
          faults = 0;
          failed_name = [];
          taken = 0;
        } }
    {
        ShelfMap {
            files,
            fails,
            calls: 0,
            faults: 0,
            failed_name: None,
            taken: 0,
        }
    }
}

impl ShelfMap {
    // Counts a call for this name that fails.
    fn fail(&mut self, name: Text) -> FetchFault
        ensures state { self.new ≡ record self.old { faults = counted_up self.old.faults; failed_name = name } }
        ensures counted { self.old.faults ≤ self.new.faults }
        ensures fault { result ≡ FetchFault.Failed }
    {
        self.faults = self.faults.saturating_add(1);
        self.failed_name = Some(name);
        FetchFault::Failed
    }
}

impl Shelf for ShelfMap {
    ghost files = { λ s. Some (files_of s.files) };

    ghost faults = { λ s. s.faults };

    ghost failed_name = { λ s. s.failed_name };

    ghost taken = { λ s. s.taken };

    #[tactic(auto, using(crate::proofs::lemmas::FilesLemmas::get_files_of))]
    fn fetch_most(&mut self, alloc: Global, name: &str, most: usize) -> Result<Vec<u8>, FetchFault>
        ensures same_files { self.new.files ≡ self.old.files }
        ensures same_fails { self.new.fails ≡ self.old.fails }
        ensures calls { self.new.calls ≡ counted_up self.old.calls }
        ensures counted { self.old.faults ≤ self.new.faults }
        ensures within { IfOk result (λ bytes. vec_len bytes ≤ most) }
        ensures took { IfOk result (λ bytes. self.new.taken ≡ vec_len bytes) }
        ensures whole { IfOk result (λ bytes. bytes.items ≡ bytes_under (files_of self.old.files) name.now) }
        ensures failed { result ≡ Err FetchFault.Failed → self.new.faults ≡ counted_up self.old.faults }
        ensures same_faults { result ≢ Err FetchFault.Failed → self.new.faults ≡ self.old.faults }
        ensures named { result ≡ Err FetchFault.Failed → self.new.failed_name ≡ name.now }
        ensures same_name { result ≢ Err FetchFault.Failed → self.new.failed_name ≡ self.old.failed_name }
        ensures took_none { result ≡ Err FetchFault.Failed → self.new.taken ≡ 0 }
        ensures too_long { result ≡ Err FetchFault.TooLong → self.new.taken ≡ most + 1 }
        ensures longer { result ≡ Err FetchFault.TooLong →
            most < length (bytes_under (files_of self.old.files) name.now) }
        ensures most { self.new.taken ≤ most + 1 }
        ensures of_file { self.new.taken ≤ length (bytes_under (files_of self.old.files) name.now) }

        // It fails exactly where it is to fail.
        ensures fails_only { result ≡ Err FetchFault.Failed → FetchFails self.old name.now }
        ensures fails { FetchFails self.old name.now → IsErr result × (result ≢ Err FetchFault.TooLong) }
    {
        let number = self.calls;
        self.calls = number.saturating_add(1);
        self.taken = 0;
        let asked = Text::from_bytes(alloc, name.as_bytes())?;
        if counts::is_listed(self.fails.as_slice(), number) {
            return Err(self.fail(asked));
        }
        let Some(bytes) = files::bytes_of(self.files.as_slice(), name.as_bytes()) else {
            return Err(self.fail(asked));
        };
        self.taken = files::taken_of(most, bytes.len());
        files::copied(alloc, bytes, most)
    }
}
