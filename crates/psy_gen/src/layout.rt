//! Where the cells of slots stand.

ghost use Rattle.std.specs.Prelude.{◌≡◌, ◌+◌, ◌<◌, ◌^◌, [], ◌∷◌, ◌++◌, OnOk};
ghost use Rattle.psy_tree.specs.Paths.{total};
ghost use Rattle.psy_gen.specs.Emission.{base_of, cells_in_slot};

use psy_base::{Items, Memory};
use std::alloc::Global;
use std::marker::Model;

/// Where a slot's first cell stands, and how many it has.
#[derive(Clone, Copy, Debug)]
struct Span {
    base: u32,
    cells: u32,
}

/// The slots of an agent or a function, whose cells stand one after the other. Contracts see how many
/// cells each slot has.
#[derive(Debug, Drop)]
pub struct Layout {
    spans: Items<Span>,
    size: u32,
}

impl Model for Layout {
    ghost use Rattle.std.specs.Prelude.{◌≡◌, List, ℕ, map};
    ghost use Rattle.psy_gen.specs.Spans.{StandFrom};

    ghost Value = { List ℕ };

    ghost view = { λ l. map (λ s. s.cells) l.spans };

    ghost invariant = { λ l. StandFrom 0 l.spans l.size };
}

impl Layout {
    pub fn new(alloc: Global) -> Layout
        ensures { result ≡ [] }
    {
        Layout {
            spans: Items::new(alloc),
            size: 0,
        }
    }

    /// One slot more.
    pub fn add(&mut self, cells: u32) -> Result<(), Memory>
        requires { total self.old + cells < 2 ^ 32 }
        ensures { OnOk result (self.new ≡ self.old ++ cells ∷ []) }
    {
        let size = self.size + cells;
        self.spans.push(Span {
            base: self.size,
            cells,
        })?;
        self.size = size;
        Ok(())
    }

    pub fn base(&self, slot: u32) -> u32
        ensures { result ≡ base_of self.now slot }
    {
        match self.spans.get(slot as usize) {
            Some(span) => span.base,
            None => self.size,
        }
    }

    pub fn cells(&self, slot: u32) -> u32
        ensures { result ≡ cells_in_slot self.now slot }
    {
        match self.spans.get(slot as usize) {
            Some(span) => span.cells,
            None => 0,
        }
    }
}
