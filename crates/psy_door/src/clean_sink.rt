//! A sink in memory whose calls never fail.
ghost use Rattle.std.specs.Prelude.{◌≡◌, true, [], length, IfOk};
ghost use Rattle.psy_door.specs.States.{CleanSinkCalls, written, told};

use crate::sink::{Failed, Sink};
use psy_base::Memory;
use std::alloc::Global;
use std::marker::Model;

/// A sink in memory whose calls never fail. It keeps what fits its room, and tells its bytes as long
/// as all were kept.
#[derive(Debug, Drop)]
pub struct CleanSink {
    bytes: Vec<u8>,
    room: usize,
    whole: bool,
}

impl Model for CleanSink {
    ghost use Rattle.std.specs.Prelude.{◌≤◌, vec_len, vec_capacity};
    ghost use Rattle.psy_door.specs.States.{CleanSinkState};

    ghost Value = { CleanSinkState };

    ghost view = { λ s. record { bytes = s.bytes.items; room = s.room; whole = s.whole } };

    ghost invariant = { λ s. (vec_len s.bytes ≤ s.room) × (s.room ≤ vec_capacity s.bytes) };
}

impl CleanSink {
    /// A sink with room for this number of bytes. The only error is want of memory.
    pub fn new(alloc: Global, room: usize) -> Result<CleanSink, Memory>
        ensures { IfOk result (λ s. s ≡ record { bytes = []; room = room; whole = true }) }
    {
        Ok(CleanSink {
            bytes: Vec::with_capacity(alloc, room)?,
            room,
            whole: true,
        })
    }

    /// The bytes that were kept.
    pub fn bytes(&self) -> &[u8]
        ensures { result.now ≡ self.now.bytes }
    {
        self.bytes.as_slice()
    }
}

impl Sink for CleanSink {
    ghost held = { told };

    ghost faults = { λ _. 0 };

    ghost calls = { CleanSinkCalls };

    fn write(&mut self, piece: &[u8]) -> Result<usize, Failed>
        ensures all { result ≡ Ok (length piece.now) }
        ensures kept { self.new ≡ written self.old piece.now }
    {
        let free = self.room - self.bytes.len();
        let n = piece.len().min(free);
        if self.bytes.extend_from_slice(&piece[..n]).is_err() {
            prove!(false);
        }
        self.whole = self.whole && n == piece.len();
        Ok(piece.len())
    }
}
