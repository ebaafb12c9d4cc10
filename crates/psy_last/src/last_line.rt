//! A sink that remembers the last line.
ghost use Rattle.std.specs.Prelude.{◌≡◌, ◌<◌, ◌≤◌, [], length, take, IfOk, OnOk, OnErr, MatchOption, ⊤};
ghost use Rattle.std.specs.Option.{option_copied};
ghost use Rattle.psy_door.specs.Faults.{Rose};
ghost use Rattle.psy_door.specs.Growth.{Grew};
ghost use Rattle.psy_last.specs.Lasts.{last_line, short};
ghost use Rattle.psy_last.specs.Remembering.{IsFresh, Remembered};

use crate::tail::Tail;
use psy_door::{Failed, Sink};
use std::marker::Model;

/// A sink that hands its bytes on to another, and remembers the last line.
#[derive(Drop)]
pub struct LastLine<S: Sink> {
    sink: S,
    tail: Tail,
}

impl<S: Sink> Model for LastLine<S> {
    ghost use Rattle.std.specs.Prelude.{MatchOption, ⊤};
    ghost use Rattle.psy_last.specs.Lasts.{last_line};
    ghost use Rattle.psy_last.specs.Remembering.{Remembered};
    ghost use Rattle.psy_last.specs.Tails.{IsTail};

    ghost Value = { Remembered };

    ghost view = { λ s. record { held = S.held s.sink; faults = S.faults s.sink } };

    ghost invariant = { λ s. MatchOption (S.held s.sink) ⊤ (λ bytes. IsTail s.tail (last_line bytes)) };
}

impl<S: Sink> LastLine<S> {
    /// A sink before another, to which nothing was written yet. It takes no memory.
    pub fn new(sink: S) -> LastLine<S>
        requires { IsFresh (S.held sink) }
        ensures { result ≡ record { held = S.held sink; faults = S.faults sink } }
    {
        LastLine {
            sink,
            tail: Tail::new(),
        }
    }

    /// The sink behind it.
    pub fn sink(&self) -> &S
        ensures held { S.held result.now ≡ self.now.held }
        ensures faults { S.faults result.now ≡ self.now.faults }
    {
        &self.sink
    }

    /// The last line that was written, with its line feed; None where it has more than 128 bytes.
    pub fn last(&self) -> Option<&[u8]>
        ensures { MatchOption self.now.held ⊤ (λ bytes. option_copied result ≡ short (last_line bytes)) }
    {
        self.tail.line()
    }
}

impl<S: Sink> Sink for LastLine<S> {
    ghost held = { λ s. s.held };

    ghost faults = { λ s. s.faults };

    // Nothing more is told of its calls.
    ghost calls = { λ _ _ _ _. ⊤ };

    fn write(&mut self, piece: &[u8]) -> Result<usize, Failed>
        ensures counted { self.old.faults ≤ self.new.faults }
        ensures most { IfOk result (λ n. n ≤ length piece.now) }
        ensures some { IfOk result (λ n. 0 < length piece.now → 0 < n) }
        ensures added { IfOk result (λ n. Grew self.old.held self.new.held (take n piece.now)) }
        ensures unfailed { OnOk result (self.new.faults ≡ self.old.faults) }
        ensures failed { OnErr result (Rose self.old.faults self.new.faults) }
        ensures nothing { OnErr result (Grew self.old.held self.new.held []) }
    {
        let taken = self.sink.write(piece)?;
        self.tail.extend(&piece[..taken]);
        Ok(taken)
    }
}
