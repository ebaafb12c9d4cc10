//! Where files are read from.
ghost use Rattle.std.specs.Prelude.{◌≡◌, ◌≢◌, ℕ, ◌+◌, ◌<◌, ◌≤◌, List, Option, length, vec_len, IfOk};
ghost use Rattle.psy_base.specs.declared.limits.TheConstants.{FILE_BYTES};
ghost use Rattle.psy_door.specs.Faults.{Rose};
ghost use Rattle.psy_door.specs.Files.{Files, WhereTold, bytes_under};

use psy_base::{Memory, limits};
use std::alloc::{AllocError, Global};
use thiserror::Error;

/// Why a file wasn't read to its end.
#[derive(Clone, Copy, Debug, PartialEq, Eq, Error)]
pub enum FetchFault {
    /// The call failed: the shelf's count of faults rose.
    #[error("the file can't be read")]
    Failed,
    /// The file has more bytes than it may have.
    #[error("the file has more bytes than it may have")]
    TooLong,
    #[error("out of memory")]
    Memory,
}

impl From<AllocError> for FetchFault {
    ghost use Rattle.std.specs.Prelude.{◌≡◌};
    ghost use Rattle.psy_door.specs.declared.shelf.FetchFault.{FetchFault};

    ghost from_gives = { λ _ fault. fault ≡ FetchFault.Memory };

    fn from(_error: AllocError) -> FetchFault {
        FetchFault::Memory
    }
}

impl From<Memory> for FetchFault {
    ghost use Rattle.std.specs.Prelude.{◌≡◌};
    ghost use Rattle.psy_door.specs.declared.shelf.FetchFault.{FetchFault};

    ghost from_gives = { λ _ fault. fault ≡ FetchFault.Memory };

    fn from(_error: Memory) -> FetchFault {
        FetchFault::Memory
    }
}

/// Where files are read from.
pub trait Shelf {
    // the files that it holds, where it tells them
    ghost files: { Self → Option Files };

    // how many of its calls failed
    ghost faults: { Self → ℕ };

    // the name that the last call to fail asked for, and no bytes before there was one
    ghost failed_name: { Self → List ℕ };

    // how many bytes its last call took from a file
    ghost taken: { Self → ℕ };

    /// The bytes of the file with this name, of which it may have so many.
    fn fetch_most(&mut self, alloc: Global, name: &str, most: usize) -> Result<Vec<u8>, FetchFault>
        ensures same_files { files self.new ≡ files self.old }
        ensures counted { faults self.old ≤ faults self.new }
        ensures within { IfOk result (λ bytes. vec_len bytes ≤ most) }
        ensures took { IfOk result (λ bytes. taken self.new ≡ vec_len bytes) }
        ensures whole { IfOk result (λ bytes.
            WhereTold (files self.old) (λ held. bytes.items ≡ bytes_under held name.now)) }
        ensures failed { result ≡ Err FetchFault.Failed → Rose (faults self.old) (faults self.new) }
        ensures unfailed { result ≢ Err FetchFault.Failed → faults self.new ≡ faults self.old }
        ensures named { result ≡ Err FetchFault.Failed → failed_name self.new ≡ name.now }
        ensures same_name { result ≢ Err FetchFault.Failed → failed_name self.new ≡ failed_name self.old }
        ensures too_long { result ≡ Err FetchFault.TooLong → taken self.new ≡ most + 1 }
        ensures longer { result ≡ Err FetchFault.TooLong →
            WhereTold (files self.old) (λ held. most < length (bytes_under held name.now)) }

        // Whatever it answers, it took at most one byte more than it gives, and no more than the file has.
        ensures most { taken self.new ≤ most + 1 }
        ensures of_file { WhereTold (files self.old) (λ held. taken self.new ≤ length (bytes_under held name.now)) };

    /// The bytes of the file with this name, at most 262,144.
    fn fetch(&mut self, alloc: Global, name: &str) -> Result<Vec<u8>, FetchFault>
        ensures same_files { files self.new ≡ files self.old }
        ensures counted { faults self.old ≤ faults self.new }
        ensures within { IfOk result (λ bytes. vec_len bytes ≤ FILE_BYTES) }
        ensures took { IfOk result (λ bytes. taken self.new ≡ vec_len bytes) }
        ensures whole { IfOk result (λ bytes.
            WhereTold (files self.old) (λ held. bytes.items ≡ bytes_under held name.now)) }
        ensures failed { result ≡ Err FetchFault.Failed → Rose (faults self.old) (faults self.new) }
        ensures unfailed { result ≢ Err FetchFault.Failed → faults self.new ≡ faults self.old }
        ensures named { result ≡ Err FetchFault.Failed → failed_name self.new ≡ name.now }
        ensures same_name { result ≢ Err FetchFault.Failed → failed_name self.new ≡ failed_name self.old }
        ensures too_long { result ≡ Err FetchFault.TooLong → taken self.new ≡ FILE_BYTES + 1 }
        ensures longer { result ≡ Err FetchFault.TooLong →
            WhereTold (files self.old) (λ held. FILE_BYTES < length (bytes_under held name.now)) }

        // Whatever it answers, it took at most one byte more than it gives, and no more than the file has.
        ensures most { taken self.new ≤ FILE_BYTES + 1 }
        ensures of_file { WhereTold (files self.old) (λ held. taken self.new ≤ length (bytes_under held name.now)) }
    {
        self.fetch_most(alloc, name, limits::FILE_BYTES)
    }
}
