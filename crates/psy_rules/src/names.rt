//! What names stand for.
ghost use Rattle.std.specs.Prelude.{◌≡◌, [], OnOk};
ghost use Rattle.psy_tree.specs.Scope.{first_named};
ghost use Rattle.psy_rules.specs.Tables.{added};

use indexmap::IndexMap;
use psy_base::{Memory, Text};
use psy_tree::Found;
use std::alloc::Global;
use std::marker::Model;

/// What names stand for: for each the first declaration that was added, in order of declaration.
#[derive(Drop)]
pub struct Names {
    table: IndexMap<Text, Found>,
}

impl Model for Names {
    ghost use Rattle.std.specs.Prelude.{List, map};
    ghost use Rattle.psy_tree.specs.Scope.{Entry};

    ghost Value = { List Entry };

    ghost view = { λ n. map (λ e. record { text = e.0; found = e.1 }) n.table.entries };
}

impl Names {
    pub fn new(alloc: Global) -> Names
        ensures { result ≡ [] }
    {
        Names {
            table: IndexMap::new(alloc),
        }
    }

    /// What the name stands for.
    pub fn first(&self, name: &Text) -> Option<Found>
        ensures { result ≡ first_named name.now self.now }
    {
        self.table.get(name).copied()
    }

    /// Adds a declaration, unless the name has one.
    pub fn add(&mut self, alloc: Global, name: &Text, found: Found) -> Result<(), Memory>
        ensures { OnOk result (self.new ≡ added self.old name.now found) }
    {
        if self.first(name).is_some() {
            return Ok(());
        }
        self.table
            .insert(Text::from_bytes(alloc, name.bytes())?, found)?;
        Ok(())
    }
}
