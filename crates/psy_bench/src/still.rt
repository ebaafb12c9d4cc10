//! A view that never changes.
ghost use Rattle.std.specs.Prelude.{◌≡◌, refl};

use psy_code::{Look, Sent};

/// One variable, which stays as it is, and one stream, which is empty. One send is taken.
#[derive(Drop)]
pub struct Still {
    pub published: i32,
    pub noted: Option<(u32, u32)>,
    pub sent: Option<Sent>,
}

impl Look for Still {
    ghost use Rattle.psy_bench.specs.Loop.{seen};

    ghost window = { seen };

    ghost Keeps = { λ before after. after.published ≡ before.published };

    ghost keeps = { λ still. refl };

    fn past(&mut self, variable: u32, back: u32) -> i32 {
        self.noted = Some((variable, back));
        self.published
    }

    fn ready(&self, _stream: u32) -> u32 {
        0
    }

    fn take(&mut self, _stream: u32) -> Option<i32> {
        None
    }

    fn send(&mut self, stream: u32, value: i32, after: u32, clock: u32) {
        self.sent = Some(Sent {
            stream,
            value,
            after,
            clock,
        });
    }
}
