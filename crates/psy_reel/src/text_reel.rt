//! A text in memory as a file, piece by piece.
ghost use Rattle.std.specs.Prelude.{◌≡◌, Some, [], ◌∷◌};
ghost use Rattle.psy_door.specs.Files.{bytes_under};
ghost use Rattle.psy_reel.specs.States.{file_of};

use crate::reel::{BeginFault, Reel};
use psy_door::{Failed, FetchFault, Shelf};
use std::alloc::Global;
use std::marker::Model;

/// A text in memory, as the only file of a shelf. No call fails, and the text isn't copied.
#[derive(Drop)]
pub struct TextReel<'a> {
    name: &'a [u8],
    text: &'a [u8],
    left: &'a [u8],
    taken: usize,
}

impl<'a> Model for TextReel<'a> {
    ghost use Rattle.psy_reel.specs.States.{TextReelState};

    ghost Value = { TextReelState };

    ghost view = { λ r. record { name = r.name.now; text = r.text.now; left = r.left.now; taken = r.taken } };
}

impl<'a> TextReel<'a> {
    /// The file with this name has these bytes, and there is no other. It takes no memory.
    pub fn new(name: &'a str, text: &'a [u8]) -> TextReel<'a>
        ensures { result ≡ record { name = name.now; text = text.now; left = []; taken = 0 } }
    {
        TextReel {
            name: name.as_bytes(),
            text,
            left: &[],
            taken: 0,
        }
    }

    // The bytes of the file with this name.
    #[tactic(auto, using(crate::proofs::lemmas::OneFile::bytes_of_one))]
    fn bytes_under(&self, name: &str) -> &'a [u8]
        ensures { result.now ≡ bytes_under (file_of self.now) name.now }
    {
        if name.as_bytes() == self.name {
            self.text
        } else {
            &[]
        }
    }
}

impl<'a> Shelf for TextReel<'a> {
    ghost files = { λ r. Some (file_of r) };

    ghost faults = { λ _. 0 };

    ghost failed_name = { λ _. [] };

    ghost taken = { λ r. r.taken };

    fn fetch_most(
        &mut self,
        alloc: Global,
        name: &str,
        most: usize,
    ) -> Result<Vec<u8>, FetchFault> {
        let bytes = self.bytes_under(name);
        if bytes.len() > most {
            self.taken = most + 1;
            return Err(FetchFault::TooLong);
        }
        self.taken = bytes.len();
        Ok(Vec::from_slice(alloc, bytes)?)
    }
}

impl<'a> Reel for TextReel<'a> {
    ghost left = { λ r. r.left };

    fn begin(&mut self, _alloc: Global, name: &str) -> Result<(), BeginFault> {
        self.left = self.bytes_under(name);
        Ok(())
    }

    fn next_piece(&mut self, piece: &mut [u8]) -> Result<usize, Failed> {
        let n = piece.len().min(self.left.len());
        let (next, more) = self.left.split_at(n);
        piece[..n].copy_from_slice(next);
        self.left = more;
        Ok(n)
    }
}
