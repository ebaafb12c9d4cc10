//! A line of text, in room that it has from the start.
ghost use Rattle.std.specs.Prelude.{◌≡◌, ℕ, ◌+◌, ◌<◌, ◌≤◌, List, [], ◌∷◌, ◌++◌, length, decimal};
ghost use Rattle.std.specs.Fmt.{signed_decimal};

use itoa::Buffer;
use std::marker::Model;

/// The bytes that a line has room for.
pub const LINE_BYTES: usize = 128;

/// A line of text. Contracts see it as the list of its bytes. It takes no memory.
#[derive(Debug, Drop)]
pub struct Line {
    /// The line's bytes, and behind them bytes that don't count.
    pub bytes: [u8; LINE_BYTES],
    /// How many bytes the line has, at most 128.
    pub length: usize,
}

impl Model for Line {
    ghost use Rattle.std.specs.Prelude.{ℕ, ◌≤◌, List, take};

    ghost Value = { List ℕ };

    ghost view = { λ line. take line.length line.bytes };

    ghost invariant = { λ line. line.length ≤ 128 };
}

impl Line {
    /// A line without bytes.
    pub fn new() -> Line
        ensures { result ≡ [] }
    {
        Line {
            bytes: [0; LINE_BYTES],
            length: 0,
        }
    }

    /// The line's bytes.
    pub fn bytes(&self) -> &[u8]
        ensures { result.now ≡ self.now }
    {
        &self.bytes[..self.length]
    }

    // Begins the line anew with these bytes.
    pub(crate) fn start(&mut self, piece: &[u8])
        requires { length piece.now ≤ 128 }
        ensures { self.new ≡ piece.now }
    {
        self.length = 0;
        self.add(piece);
    }

    fn push(&mut self, byte: u8)
        requires { length self.old < 128 }
        ensures { self.new ≡ self.old ++ byte ∷ [] }
    {
        self.bytes[self.length] = byte;
        self.length += 1;
    }

    // Adds these bytes.
    pub(crate) fn add(&mut self, piece: &[u8])
        requires { length self.old + length piece.now ≤ 128 }
        ensures { self.new ≡ self.old ++ piece.now }
    {
        for byte in piece {
            self.push(*byte);
        }
    }

    // Adds the decimal digits of a number of 64 bits.
    pub(crate) fn add_u64(&mut self, number: u64)
        requires { length self.old + 20 ≤ 128 }
        ensures digits { self.new ≡ self.old ++ decimal number }
        ensures most { length self.new ≤ length self.old + 20 }
    {
        self.add(Buffer::new().format(number).as_bytes());
    }

    // Adds the decimal digits of a number of 32 bits.
    pub(crate) fn add_u32(&mut self, number: u32)
        requires { length self.old + 10 ≤ 128 }
        ensures digits { self.new ≡ self.old ++ decimal number }
        ensures most { length self.new ≤ length self.old + 10 }
    {
        self.add(Buffer::new().format(number).as_bytes());
    }

    // Adds the decimal digits of a value, with a minus before them where it is below 0.
    pub(crate) fn add_value(&mut self, value: i32)
        requires { length self.old + 11 ≤ 128 }
        ensures digits { self.new ≡ self.old ++ signed_decimal value }
        ensures most { length self.new ≤ length self.old + 11 }
    {
        self.add(Buffer::new().format(value).as_bytes());
    }
}
