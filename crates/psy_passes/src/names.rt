//! Different names in their order.
ghost use Rattle.std.specs.Prelude.{◌≡◌, [], OnOk, bytes_eq, is_some, length, slice_index_or};
ghost use Rattle.std.specs.List.{list_any, position};
ghost use Rattle.psy_passes.specs.Names.{AreDistinct, with_name};

use indexmap::IndexSet;
use psy_base::Memory;
use std::alloc::Global;
use std::marker::Model;

/// Different names in their order. Contracts see them as a list. A name is found in constant time.
#[derive(Drop)]
pub struct Names<'a> {
    table: IndexSet<&'a [u8]>,
}

impl<'a> Model for Names<'a> {
    ghost use Rattle.std.specs.Prelude.{List, ℕ, map};
    ghost use Rattle.psy_passes.specs.Names.{AreDistinct};

    ghost Value = { List (List ℕ) };

    ghost view = { λ n. map (λ k. k.now) n.table.keys };

    ghost invariant = { λ n. AreDistinct (map (λ k. k.now) n.table.keys) };
}

impl<'a> Names<'a> {
    /// No names. It takes no memory.
    pub fn new(alloc: Global) -> Names<'a>
        ensures { result ≡ [] }
    {
        Names {
            table: IndexSet::new(alloc),
        }
    }

    /// How many there are.
    pub fn len(&self) -> usize
        ensures { result ≡ length self.now }
    {
        self.table.len()
    }

    /// Adds a name behind the others, where it isn't among them. The only error is want of memory.
    pub fn add(&mut self, name: &'a [u8]) -> Result<(), Memory>
        ensures { OnOk result (self.new ≡ with_name self.old name.now) }
    {
        self.table.insert(name)?;
        Ok(())
    }

    /// The place of a name among them, counted from 0; none exactly where it isn't there.
    pub fn place(&self, name: &[u8]) -> Option<usize>
        ensures place { result ≡ position (bytes_eq name.now) self.now }
        ensures found { is_some result ≡ list_any (bytes_eq name.now) self.now }
        ensures distinct { AreDistinct self.now }
    {
        self.table.get_index_of(name)
    }

    /// The name at a place, and no bytes where there is none.
    pub fn name(&self, place: usize) -> &'a [u8]
        ensures { result.now ≡ slice_index_or self.now place [] }
    {
        match self.table.get_index(place) {
            Some(name) => *name,
            None => b"",
        }
    }
}
