//! Files of a shelf, cut into pieces.
ghost use Rattle.std.specs.Prelude.{◌≡◌, ◌≢◌, ℕ, ◌+◌, ◌-◌, ◌<◌, ◌≤◌, List, [], ◌++◌, length, take, drop, min, IfOk, OnOk, OnErr, ◌↔◌, IsTrue, IsErr, Contains};
ghost use Rattle.psy_door.specs.States.{counted_up};

use psy_door::{Failed, FetchFault, Shelf};
use psy_reel::{BeginFault, Reel};
use std::alloc::Global;
use std::marker::Model;

/// Files of a shelf, which are fetched whole and cut into pieces. Calls for pieces with listed numbers fail.
#[derive(Drop)]
pub struct ShelfReel<F> {
    shelf: F,
    bytes: Vec<u8>,
    taken: usize,
    most: usize,
    fails: Vec<u32>,
    calls: u64,
    faults: u64,
}

impl<F> Model for ShelfReel<F> {
    ghost use Rattle.std.specs.Prelude.{◌<◌, ◌≤◌, drop, vec_len};
    ghost use Rattle.psy_pieces.specs.States.{ShelfReelState};

    ghost Value = { ShelfReelState F };

    ghost view = { λ r. record {
      shelf = r.shelf;
      left = drop r.taken r.bytes.items;
      most = r.most;
      fails = r.fails.items;
      calls = r.calls;
      faults = r.faults;
    } };

    ghost invariant = { λ r. (r.taken ≤ vec_len r.bytes) × (0 < r.most) };
}

impl<F: Shelf> ShelfReel<F> {
    /// The files of this shelf in pieces of at most so many bytes; the calls for a piece with the numbers in `fails`, counted from 0, fail.
    /// It takes no memory.
    pub fn new(alloc: Global, shelf: F, most: usize, fails: Vec<u32>) -> ShelfReel<F>
        requires { 1 ≤ most }
        ensures { result ≡ record { shelf = shelf; left = []; most = most; fails = fails.items; calls = 0; faults = 0 } }
    {
        ShelfReel {
            shelf,
            bytes: Vec::new(alloc),
            taken: 0,
            most,
            fails,
            calls: 0,
            faults: 0,
        }
    }
}

impl<F: Shelf> Shelf for ShelfReel<F> {
    ghost files = { λ r. F.files r.shelf };

    ghost faults = { λ r. F.faults r.shelf + r.faults };

    ghost failed_name = { λ r. F.failed_name r.shelf };

    ghost taken = { λ r. F.taken r.shelf };

    fn fetch_most(
        &mut self,
        alloc: Global,
        name: &str,
        most: usize,
    ) -> Result<Vec<u8>, FetchFault> {
        self.shelf.fetch_most(alloc, name, most)
    }
}

// Whether a call's number is listed.
fn is_listed(numbers: &[u32], number: u64) -> bool
    ensures { IsTrue result ↔ Contains numbers.now number }
{
    numbers.iter().any(|n| u64::from(*n) == number)
}

// Copies as many bytes from a place on as a piece has room for, but at most so many, and answers how many.
#[tactic(auto, using(std::proofs::lemmas::List::Folds::drop_split, std::proofs::lemmas::List::take_at))]
fn deal(piece: &mut [u8], bytes: &[u8], taken: usize, most: usize) -> usize
    requires { taken ≤ length bytes.now }
    ensures count { result ≡ min (length piece.old) (min most (length bytes.now - taken)) }
    ensures next { drop taken bytes.now ≡ take result piece.new ++ drop (taken + result) bytes.now }
{
    let n = piece.len().min(most.min(bytes.len() - taken));
    piece[..n].copy_from_slice(&bytes[taken..taken + n]);
    n
}

impl<F: Shelf> Reel for ShelfReel<F> {
    ghost left = { λ r. r.left };

    fn begin(&mut self, alloc: Global, name: &str) -> Result<(), BeginFault> {
        match self.shelf.fetch_most(alloc, name, usize::MAX - 1) {
            Ok(bytes) => {
                self.bytes = bytes;
                self.taken = 0;
                Ok(())
            }
            Err(FetchFault::Failed) => Err(BeginFault::Failed),
            Err(FetchFault::TooLong) => {
                self.faults = self.faults.saturating_add(1);
                Err(BeginFault::Failed)
            }
            Err(FetchFault::Memory) => Err(BeginFault::Memory),
        }
    }

    fn next_piece(&mut self, piece: &mut [u8]) -> Result<usize, Failed>
        requires { 0 < length piece.old }
        ensures same_shelf { self.new.shelf ≡ self.old.shelf }
        ensures fails { IsErr result ↔ Contains self.old.fails self.old.calls }
        ensures calls { self.new.calls ≡ counted_up self.old.calls }
        ensures counted { self.old.faults ≤ self.new.faults }
        ensures most { IfOk result (λ n. n ≡ min (length piece.old) (min self.old.most (length self.old.left))) }
        ensures next { IfOk result (λ n. self.old.left ≡ take n piece.new ++ self.new.left) }
        ensures ended { IfOk result (λ n. n ≡ 0 → self.old.left ≡ []) }
        ensures failed { OnErr result (self.new.faults ≡ counted_up self.old.faults) }
        ensures unfailed { OnOk result (self.new.faults ≡ self.old.faults) }
    {
        let number = self.calls;
        self.calls = number.saturating_add(1);
        if is_listed(self.fails.as_slice(), number) {
            self.faults = self.faults.saturating_add(1);
            return Err(Failed);
        }
        let n = deal(piece, self.bytes.as_slice(), self.taken, self.most);
        self.taken += n;
        Ok(n)
    }
}
