//! Files that are read piece by piece.
ghost use Rattle.std.specs.Prelude.{◌≡◌, ◌≢◌, ℕ, ◌<◌, ◌≤◌, List, [], ◌++◌, length, take, IfOk, OnOk, OnErr};
ghost use Rattle.psy_door.specs.Faults.{Rose};
ghost use Rattle.psy_door.specs.Files.{WhereTold, bytes_under};

use psy_door::{Failed, Shelf};
use std::alloc::{AllocError, Global};
use thiserror::Error;

/// Why a file isn't read from its beginning.
#[derive(Clone, Copy, Debug, PartialEq, Eq, Error)]
pub enum BeginFault {
    /// The call failed: the count of faults rose.
    #[error("the file can't be read")]
    Failed,
    #[error("out of memory")]
    Memory,
}

impl From<AllocError> for BeginFault {
    ghost use Rattle.std.specs.Prelude.{◌≡◌};
    ghost use Rattle.psy_reel.specs.declared.reel.BeginFault.{BeginFault};

    ghost from_gives = { λ _ fault. fault ≡ BeginFault.Memory };

    fn from(_error: AllocError) -> BeginFault {
        BeginFault::Memory
    }
}

/// A shelf of files that are also read piece by piece, one at a time. A file that is begun again is read from its beginning.
pub trait Reel: Shelf {
    // what is left of the file that was begun last, where files are told
    ghost left: { Self → List ℕ };

    /// Goes to the beginning of the file with this name.
    fn begin(&mut self, alloc: Global, name: &str) -> Result<(), BeginFault>
        ensures same_files { Self.files self.new ≡ Self.files self.old }
        ensures counted { Self.faults self.old ≤ Self.faults self.new }
        ensures begun { OnOk result (WhereTold (Self.files self.old) (λ held. left self.new ≡ bytes_under held name.now)) }
        ensures failed { result ≡ Err BeginFault.Failed → Rose (Self.faults self.old) (Self.faults self.new) }
        ensures unfailed { result ≢ Err BeginFault.Failed → Self.faults self.new ≡ Self.faults self.old };

    /// Puts the next bytes of the file into the front of a piece, and answers how many: at least one, unless none is left.
    fn next_piece(&mut self, piece: &mut [u8]) -> Result<usize, Failed>
        requires { 0 < length piece.old }
        ensures same_files { Self.files self.new ≡ Self.files self.old }
        ensures counted { Self.faults self.old ≤ Self.faults self.new }
        ensures most { IfOk result (λ n. n ≤ length piece.old) }
        ensures next { IfOk result (λ n. WhereTold (Self.files self.old) (λ _. left self.old ≡ take n piece.new ++ left self.new)) }
        ensures ended { IfOk result (λ n. n ≡ 0 → WhereTold (Self.files self.old) (λ _. left self.old ≡ [])) }
        ensures failed { OnErr result (Rose (Self.faults self.old) (Self.faults self.new)) }
        ensures unfailed { OnOk result (Self.faults self.new ≡ Self.faults self.old) };
}
