//! The last line of some bytes, in room of fixed size.
ghost use Rattle.std.specs.Prelude.{◌≡◌, ◌+◌, ◌<◌, ◌≤◌, ◌==◌, ℕ, List, [], ◌∷◌, ◌++◌, take};
ghost use Rattle.std.specs.List.{fold};
ghost use Rattle.std.specs.Option.{option_copied};
ghost use Rattle.psy_last.specs.declared.tail.TheConstants.{LINE_BYTES};
ghost use Rattle.psy_last.specs.Lasts.{short, with_byte};
ghost use Rattle.psy_last.specs.Tails.{IsTail};

/// The bytes that a line may have.
pub const LINE_BYTES: usize = 128;

/// The last line of some bytes.
#[derive(Debug, Drop)]
pub struct Tail {
    /// Its bytes, and behind them bytes that don't count.
    pub bytes: [u8; LINE_BYTES],
    /// How many bytes it has; more than there is room for where it is too long.
    pub length: usize,
    /// It ends with a line feed.
    pub is_over: bool,
}

impl Tail {
    /// That of no bytes.
    pub fn new() -> Tail
        ensures { IsTail result [] }
    {
        Tail {
            bytes: [0; LINE_BYTES],
            length: 0,
            is_over: false,
        }
    }

    // The first byte of a line.
    fn begin(&mut self, byte: u8)
        ensures { IsTail self.new (byte ∷ []) }
    {
        self.length = 0;
        self.add(byte);
    }

    // One byte more of the line.
    fn add(&mut self, byte: u8)
        ensures kept { self.old.length < LINE_BYTES → (self.new.length ≡ self.old.length + 1)
            × (take self.new.length self.new.bytes ≡ take self.old.length self.old.bytes ++ byte ∷ []) }
        ensures long { LINE_BYTES ≤ self.old.length → self.new.length ≡ LINE_BYTES + 1 }
        ensures over { self.new.is_over ≡ byte == 10 }
    {
        self.is_over = byte == b'\n';
        if self.length < LINE_BYTES {
            self.bytes[self.length] = byte;
            self.length += 1;
        } else {
            self.length = LINE_BYTES + 1;
        }
    }

    // One byte more.
    fn push(&mut self, byte: u8)
        ensures { (line : List ℕ) → IsTail self.old line → IsTail self.new (with_byte line byte) }
    {
        if self.is_over {
            self.begin(byte);
        } else {
            self.add(byte);
        }
    }

    /// Some bytes more.
    pub fn extend(&mut self, bytes: &[u8])
        ensures { (line : List ℕ) → IsTail self.old line → IsTail self.new (fold with_byte line bytes.now) }
    {
        'each: for byte in bytes {
            self.push(*byte);
        }
    }

    /// The line; None where it is too long.
    pub fn line(&self) -> Option<&[u8]>
        ensures { (line : List ℕ) → IsTail self.now line → option_copied result ≡ short line }
    {
        self.bytes.get(..self.length)
    }
}
