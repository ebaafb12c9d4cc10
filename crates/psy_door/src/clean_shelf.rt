//! Files in memory whose calls never fail.
ghost use Rattle.std.specs.Prelude.{◌≡◌, ◌≢◌, ◌<◌, ◌≤◌, Some, [], map, length, vec_len, IfOk};
ghost use Rattle.psy_door.specs.Files.{files_of, bytes_under, taken_of};

use crate::files;
use crate::shelf::{FetchFault, Shelf};
use psy_base::Text;
use std::alloc::Global;
use std::marker::Model;

/// Files in memory whose calls never fail. A name that it doesn't hold is that of an empty file.
#[derive(Debug, Drop)]
pub struct CleanShelf {
    files: Vec<(Text, Vec<u8>)>,
    taken: usize,
}

impl Model for CleanShelf {
    ghost use Rattle.std.specs.Prelude.{map};
    ghost use Rattle.psy_door.specs.States.{CleanShelfState};

    ghost Value = { CleanShelfState };

    ghost view = { λ s. record { files = map (λ p. (p.0, p.1.items)) s.files.items; taken = s.taken } };
}

impl CleanShelf {
    /// A shelf with these files. It takes no memory.
    pub fn new(files: Vec<(Text, Vec<u8>)>) -> CleanShelf
        ensures { result ≡ record { files = map (λ p. (p.0, p.1.items)) files.items; taken = 0 } }
    {
        CleanShelf { files, taken: 0 }
    }
}

impl Shelf for CleanShelf {
    ghost files = { λ s. Some (files_of s.files) };

    ghost faults = { λ _. 0 };

    ghost failed_name = { λ _. [] };

    ghost taken = { λ s. s.taken };

    #[tactic(auto, using(crate::proofs::lemmas::FilesLemmas::get_files_of))]
    fn fetch_most(&mut self, alloc: Global, name: &str, most: usize) -> Result<Vec<u8>, FetchFault>
        ensures state { self.new ≡ record self.old {
          taken = taken_of most (length (bytes_under (files_of self.old.files) name.now));
        } }
        ensures within { IfOk result (λ bytes. vec_len bytes ≤ most) }
        ensures whole { IfOk result (λ bytes. bytes.items ≡ bytes_under (files_of self.old.files) name.now) }
        ensures never { result ≢ Err FetchFault.Failed }
        ensures longer { result ≡ Err FetchFault.TooLong →
            most < length (bytes_under (files_of self.old.files) name.now) }
    {
        let found = files::bytes_of(self.files.as_slice(), name.as_bytes());
        let bytes = found.unwrap_or(&[]);
        self.taken = files::taken_of(most, bytes.len());
        files::copied(alloc, bytes, most)
    }
}
