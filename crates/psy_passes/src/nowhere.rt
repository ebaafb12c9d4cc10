//! Where nothing is kept.
ghost use Rattle.std.specs.Prelude.{◌≡◌, None, ⊤, length};

use psy_door::{Failed, Sink};

/// A sink that takes all and keeps nothing.
#[derive(Drop)]
pub struct Nowhere;

impl Sink for Nowhere {
    ghost held = { λ _. None };

    ghost faults = { λ _. 0 };

    // Nothing is told of its calls.
    ghost calls = { λ _ _ _ _. ⊤ };

    fn write(&mut self, piece: &[u8]) -> Result<usize, Failed>
        ensures { result ≡ Ok (length piece.now) }
    {
        Ok(piece.len())
    }
}
