//! Tables of names.

ghost use Rattle.std.specs.Prelude.{◌≡◌, ◌||◌, ℕ, List, [], false, MatchOption, OnOk, bytes_eq, is_some, length, slice_index_or};
ghost use Rattle.std.specs.List.{list_any, position};

use indexmap::IndexSet;
use psy_base::Memory;
use std::alloc::Global;
use std::marker::Model;

/// Different names. Contracts see them as a list.
#[derive(Drop)]
pub struct Names<'a> {
    table: IndexSet<&'a [u8]>,
}

impl<'a> Model for Names<'a> {
    ghost use Rattle.std.specs.Prelude.{List, ℕ, map};

    ghost Value = { List (List ℕ) };

    ghost view = { λ n. map (λ k. k.now) n.table.keys };
}

impl<'a> Names<'a> {
    /// No names.
    pub fn new(alloc: Global) -> Names<'a>
        ensures { result ≡ [] }
    {
        Names {
            table: IndexSet::new(alloc),
        }
    }

    /// Adds a name, where it isn't there.
    pub fn add(&mut self, name: &'a [u8]) -> Result<(), Memory>
        ensures { OnOk result ((other : List ℕ) → list_any (bytes_eq other) self.new ≡ (list_any (bytes_eq other) self.old || bytes_eq other name.now)) }
    {
        self.table.insert(name)?;
        Ok(())
    }

    /// How many there are.
    pub fn len(&self) -> usize
        ensures { result ≡ length self.now }
    {
        self.table.len()
    }

    /// The place of a name among them, counted from 0; none exactly where it isn't there.
    pub fn place(&self, name: &[u8]) -> Option<usize>
        ensures place { result ≡ position (bytes_eq name.now) self.now }
        ensures found { is_some result ≡ list_any (bytes_eq name.now) self.now }
    {
        self.table.get_index_of(name)
    }

    /// The name that is there and is that one; none exactly where there is none.
    pub fn find(&self, name: &[u8]) -> Option<&'a [u8]>
        ensures { MatchOption result (list_any (bytes_eq name.now) self.now ≡ false) (λ found. found.now ≡ name.now) }
    {
        match self.place(name) {
            Some(place) => Some(self.name(place)),
            None => None,
        }
    }

    /// The name at a place, and no bytes where there is none.
    pub fn name(&self, place: usize) -> &'a [u8]
        ensures { result.now ≡ slice_index_or self.now place [] }
    {
        match self.table.get_index(place) {
            Some(name) => *name,
            None => b"",
        }
    }

    /// Is the name there?
    pub fn has(&self, name: &[u8]) -> bool
        ensures { result ≡ list_any (bytes_eq name.now) self.now }
    {
        self.table.get_index_of(name).is_some()
    }
}
