//! Where text is written to.
ghost use Rattle.std.specs.Prelude.{◌≡◌, ℕ, ◌<◌, ◌≤◌, List, [], Option, Result, length, take, IfOk, OnOk, OnErr};
ghost use Rattle.psy_door.specs.Faults.{Rose};
ghost use Rattle.psy_door.specs.Growth.{Grew};
ghost use Rattle.psy_door.specs.declared.sink.Failed.{Failed as Fault};

use thiserror::Error;

/// A write that failed: the sink's count of faults rose, and no byte was added.
#[derive(Clone, Copy, Debug, PartialEq, Eq, Error)]
#[error("the text can't be written")]
pub struct Failed;

/// Where text is written to.
pub trait Sink {
    // the bytes that it holds, where it tells them
    ghost held: { Self → Option (List ℕ) };

    // how many of its calls failed
    ghost faults: { Self → ℕ };

    // what a call with this piece may answer, and as what it leaves the sink
    ghost calls: { Self → List ℕ → Result ℕ Fault → Self → Type 0 };

    /// Adds some bytes from the front of the piece, and answers how many: at least one, unless the
    /// piece is empty.
    fn write(&mut self, piece: &[u8]) -> Result<usize, Failed>
        ensures called { calls self.old piece.now result self.new }
        ensures counted { faults self.old ≤ faults self.new }
        ensures most { IfOk result (λ n. n ≤ length piece.now) }
        ensures some { IfOk result (λ n. 0 < length piece.now → 0 < n) }
        ensures added { IfOk result (λ n. Grew (held self.old) (held self.new) (take n piece.now)) }
        ensures unfailed { OnOk result (faults self.new ≡ faults self.old) }
        ensures failed { OnErr result (Rose (faults self.old) (faults self.new)) }
        ensures nothing { OnErr result (Grew (held self.old) (held self.new) []) };
}
