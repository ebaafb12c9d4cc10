//! The names of agents and of variables.
ghost use Rattle.std.specs.Prelude.{◌≡◌, ◌^◌, ◌<◌, ◌++◌, [], ◌∷◌, IfOk, OnOk, bytes_eq, false, length, map};
ghost use Rattle.std.specs.List.{list_any, position};
ghost use Rattle.psy_meaning.specs.Units.{IsBare};

use indexmap::IndexMap;
use psy_base::{Memory, Text};
use psy_tree::Unit;
use std::alloc::Global;
use std::marker::Model;

/// Different names, each of which stands for its place among them. Contracts see them as a list.
#[derive(Drop)]
pub struct Names {
    table: IndexMap<Text, ()>,
}

impl Model for Names {
    ghost use Rattle.std.specs.Prelude.{List, ℕ, ◌^◌, ◌≤◌, length, map};

    ghost Value = { List (List ℕ) };

    ghost view = { λ n. map (λ e. e.0) n.table.entries };

    // A place fits 32 bits.
    ghost invariant = { λ n. length n.table.entries ≤ 2 ^ 32 };
}

impl Names {
    fn new(alloc: Global) -> Names
        ensures { result ≡ [] }
    {
        Names {
            table: IndexMap::new(alloc),
        }
    }

    // Adds a name that isn't there.
    fn add(&mut self, alloc: Global, name: &Text) -> Result<(), Memory>
        requires few { length self.old < 2 ^ 32 }
        requires absent { list_any (bytes_eq name.now) self.old ≡ false }
        ensures { OnOk result (self.new ≡ self.old ++ name.now ∷ []) }
    {
        let name = Text::from_bytes(alloc, name.bytes())?;
        self.table.insert(name, ())?;
        Ok(())
    }

    /// The place of a name; none exactly where it isn't there.
    pub fn place(&self, alloc: Global, name: &[u8]) -> Result<Option<u32>, Memory>
        ensures { IfOk result (λ place. place ≡ position (bytes_eq name.now) self.now) }
    {
        let name = Text::from_bytes(alloc, name)?;
        match self.table.get_index_of(&name) {
            Some(place) => Ok(Some(place as u32)),
            None => Ok(None),
        }
    }

    /// The names of a program's variables, inputs among them.
    pub fn of_variables(alloc: Global, unit: &Unit) -> Result<Names, Memory>
        requires { IsBare unit.now }
        ensures { IfOk result (λ names. names ≡ map (λ v. v.name) unit.now.variables) }
    {
        let mut names = Names::new(alloc);
        for variable in unit.variables.as_slice() {
            names.add(alloc, &variable.name)?;
        }
        Ok(names)
    }

    /// The names of its agents.
    pub fn of_agents(alloc: Global, unit: &Unit) -> Result<Names, Memory>
        requires { IsBare unit.now }
        ensures { IfOk result (λ names. names ≡ map (λ a. a.name) unit.now.agents) }
    {
        let mut names = Names::new(alloc);
        for agent in unit.agents.as_slice() {
            names.add(alloc, &agent.name)?;
        }
        Ok(names)
    }
}
