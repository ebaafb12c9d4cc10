//! A text as a sink.
ghost use Rattle.std.specs.Prelude.{Some, ⊤};

use psy_door::{Failed, Sink};

/// A text that grows. A write fails where memory runs out.
#[derive(Drop)]
pub struct TextSink {
    pub text: Vec<u8>,
    pub faults: u64,
}

impl Sink for TextSink {
    ghost held = { λ s. Some s.text.items };

    ghost faults = { λ s. s.faults };

    // Nothing is told of its calls.
    ghost calls = { λ _ _ _ _. ⊤ };

    fn write(&mut self, piece: &[u8]) -> Result<usize, Failed> {
        match self.text.extend_from_slice(piece) {
            Ok(()) => Ok(piece.len()),
            Err(_) => {
                self.faults = self.faults.saturating_add(1);
                Err(Failed)
            }
        }
    }
}
