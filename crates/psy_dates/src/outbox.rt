//! What an agent's action sends, until it ends.
ghost use Rattle.std.specs.Prelude.{◌≡◌, ◌^◌, ◌<◌, [], ◌∷◌, ◌++◌, IfOk, length};

use psy_base::Memory;
use psy_code::Sent;
use std::alloc::Global;
use std::marker::Model;

/// What an agent's action sends, until it ends. Contracts see its size, the number of sends that it has room for, and the list of those
/// that it holds.
#[derive(Drop)]
pub struct Outbox {
    size: u32,
    sends: Vec<Sent>,
}

impl Model for Outbox {
    ghost use Rattle.psy_dates.specs.BoxStanding.{IsOutbox, outboxed};
    ghost use Rattle.psy_dates.specs.Outboxes.{Outboxed};

    ghost Value = { Outboxed };

    ghost view = { outboxed };

    ghost invariant = { IsOutbox };
}

impl Outbox {
    /// An empty outbox with room for so many sends. The only error is want of memory; no other call takes any.
    pub fn new(alloc: Global, size: u32) -> Result<Outbox, Memory>
        ensures { IfOk result (λ outbox. outbox ≡ record { size = size; sends = [] }) }
    {
        Ok(Outbox {
            size,
            sends: Vec::with_capacity(alloc, size as usize)?,
        })
    }

    /// A send goes to the end.
    pub fn send(&mut self, sent: Sent)
        requires { length self.old.sends < self.old.size }
        ensures { self.new ≡ record self.old { sends = self.old.sends ++ sent ∷ [] } }
    {
        // There is room, so this takes no memory.
        let _ = self.sends.push(sent);
    }

    /// All sends go.
    pub fn clear(&mut self)
        ensures { self.new ≡ record self.old { sends = [] } }
    {
        self.sends.clear();
    }

    /// The sends that it holds, in order.
    pub fn sends(&self) -> &[Sent]
        ensures sends { result.now ≡ self.now.sends }
        ensures few { length result.now < 2 ^ 32 }
    {
        // the proof needs its range
        let _size = self.size;
        self.sends.as_slice()
    }
}
