//! Standard output, or another writer of the system.
ghost use Rattle.std.specs.Prelude.{◌≡◌, ◌<◌, ◌≤◌, None, ⊤, length, IfOk, IfSome, OnOk, OnErr};
ghost use Rattle.psy_door.specs.States.{counted_up};

use crate::sink::{Failed, Sink};
use std::io::{self, Write};
use std::marker::Model;

/// Standard output, or another writer of the system, flushed in each write. It tells no content, and
/// counts a fault at every error of the system and at every write that takes nothing.
#[derive(Drop)]
pub struct StdSink<W> {
    out: W,
    faults: u64,
}

impl<W> Model for StdSink<W> {
    ghost use Rattle.std.specs.Prelude.{ℕ};

    ghost Value = { ℕ };

    ghost view = { λ s. s.faults };
}

// Writes some bytes of the piece and flushes; None where either failed, or nothing was taken.
fn pushed<W: Write>(out: &mut W, piece: &[u8]) -> Option<usize>
    ensures most { IfSome result (λ n. n ≤ length piece.now) }
    ensures some { IfSome result (λ n. 0 < length piece.now → 0 < n) }
{
    let n = out.write(piece).ok()?;
    out.flush().ok()?;
    if n == 0 && !piece.is_empty() {
        return None;
    }
    Some(n)
}

impl<W: Write> StdSink<W> {
    /// A sink over this writer. It takes no memory.
    pub fn new(out: W) -> StdSink<W>
        ensures { result ≡ 0 }
    {
        StdSink { out, faults: 0 }
    }
}

impl<W: Write> Sink for StdSink<W> {
    ghost held = { λ _. None };

    ghost faults = { λ faults. faults };

    // Nothing is told of its calls.
    ghost calls = { λ _ _ _ _. ⊤ };

    fn write(&mut self, piece: &[u8]) -> Result<usize, Failed>
        ensures counted { self.old ≤ self.new }
        ensures most { IfOk result (λ n. n ≤ length piece.now) }
        ensures some { IfOk result (λ n. 0 < length piece.now → 0 < n) }
        ensures ok { OnOk result (self.new ≡ self.old) }
        ensures err { OnErr result (self.new ≡ counted_up self.old) }
    {
        match pushed(&mut self.out, piece) {
            Some(n) => Ok(n),
            None => {
                self.faults = self.faults.saturating_add(1);
                Err(Failed)
            }
        }
    }
}
