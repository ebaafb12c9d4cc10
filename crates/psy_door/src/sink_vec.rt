//! A sink in memory with a fixed room, some of whose calls fail.
ghost use Rattle.std.specs.Prelude.{◌≡◌, ◌+◌, ◌<◌, ◌≤◌, Some, [], ◌++◌, length, take, IfOk, OnOk, OnErr, IsErr, ◌↔◌};
ghost use Rattle.psy_door.specs.States.{SinkCalls, SinkState, WriteFails, fitting, counted_up};

use crate::counts;
use crate::sink::{Failed, Sink};
use psy_base::Memory;
use std::alloc::Global;
use std::marker::Model;

/// A sink in memory with a fixed room. Calls with listed numbers, and calls without room for a piece
/// that isn't empty, fail.
#[derive(Debug, Drop)]
pub struct SinkVec {
    bytes: Vec<u8>,
    room: usize,
    most: usize,
    fails: Vec<u32>,
    calls: u64,
    faults: u64,
}

impl Model for SinkVec {
    ghost use Rattle.std.specs.Prelude.{◌<◌, ◌≤◌, vec_len, vec_capacity};
    ghost use Rattle.psy_door.specs.States.{SinkState};

    ghost Value = { SinkState };

    ghost view = { λ s. record {
      bytes = s.bytes.items;
      room = s.room;
      most = s.most;
      fails = s.fails.items;
      calls = s.calls;
      faults = s.faults;
    } };

    ghost invariant = { λ s. (vec_len s.bytes ≤ s.room) × (s.room ≤ vec_capacity s.bytes) × (0 < s.most) };
}

impl SinkVec {
    /// A sink with room for this number of bytes, of which one call takes at most `most`, and the
    /// calls with the numbers in `fails`, counted from 0, fail. The only error is want of memory.
    pub fn new(alloc: Global, room: usize, most: usize, fails: Vec<u32>) -> Result<SinkVec, Memory>
        requires { 1 ≤ most }
        ensures { IfOk result (λ s. s ≡ record {
          bytes = [];
          room = room;
          most = most;
          fails = fails.items;
          calls = 0;
          faults = 0;
        }) }
    {
        Ok(SinkVec {
            bytes: Vec::with_capacity(alloc, room)?,
            room,
            most,
            fails,
            calls: 0,
            faults: 0,
        })
    }

    // Counts a call that fails.
    fn fail(&mut self) -> Failed
        ensures { self.new ≡ record self.old { faults = counted_up self.old.faults } }
    {
        self.faults = self.faults.saturating_add(1);
        Failed
    }

    /// The bytes that it holds.
    pub fn bytes(&self) -> &[u8]
        ensures { result.now ≡ self.now.bytes }
    {
        self.bytes.as_slice()
    }
}

impl Sink for SinkVec {
    ghost held = { λ s. Some s.bytes };

    ghost faults = { λ s. s.faults };

    ghost calls = { SinkCalls };

    fn write(&mut self, piece: &[u8]) -> Result<usize, Failed>
        ensures counted { self.old.faults ≤ self.new.faults }
        ensures unfailed { OnOk result (self.new.faults ≡ self.old.faults) }
        ensures some { IfOk result (λ n. 0 < length piece.now → 0 < n) }
        ensures fails { IsErr result ↔ WriteFails self.old piece.now }
        ensures fitting { IfOk result (λ n. n ≡ fitting self.old (length piece.now)) }
        ensures ok { IfOk result (λ n. self.new ≡ record self.old {
          bytes = self.old.bytes ++ take n piece.now;
          calls = counted_up self.old.calls;
        }) }
        ensures err { OnErr result (self.new ≡ record self.old {
          calls = counted_up self.old.calls;
          faults = counted_up self.old.faults;
        }) }
    {
        let number = self.calls;
        self.calls = number.saturating_add(1);
        if counts::is_listed(self.fails.as_slice(), number) {
            return Err(self.fail());
        }
        let free = self.room - self.bytes.len();
        if free == 0 && !piece.is_empty() {
            return Err(self.fail());
        }
        let n = piece.len().min(self.most.min(free));
        if self.bytes.extend_from_slice(&piece[..n]).is_err() {
            prove!(false);
        }
        Ok(n)
    }
}
