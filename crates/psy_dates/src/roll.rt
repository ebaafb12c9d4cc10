//! A list of agents with room for each.
ghost use Rattle.std.specs.Prelude.{◌≡◌, ◌^◌, ◌<◌, [], ◌∷◌, ◌++◌, IfOk, length};

use psy_base::Memory;
use std::alloc::Global;
use std::marker::Model;

/// A list of agents. Contracts see its size, the number of agents that it has room for, and the list of those that it names.
#[derive(Drop)]
pub struct Roll {
    size: u32,
    agents: Vec<u32>,
}

impl Model for Roll {
    ghost use Rattle.psy_dates.specs.RollStanding.{IsRoll, rolled};
    ghost use Rattle.psy_dates.specs.Rolls.{Rolled};

    ghost Value = { Rolled };

    ghost view = { rolled };

    ghost invariant = { IsRoll };
}

impl Roll {
    /// A roll of nobody with room for so many agents. The only error is want of memory; no other call takes any.
    pub fn new(alloc: Global, size: u32) -> Result<Roll, Memory>
        ensures { IfOk result (λ roll. roll ≡ record { size = size; agents = [] }) }
    {
        Ok(Roll {
            size,
            agents: Vec::with_capacity(alloc, size as usize)?,
        })
    }

    /// An agent goes to the end.
    pub fn add(&mut self, agent: u32)
        requires { length self.old.agents < self.old.size }
        ensures { self.new ≡ record self.old { agents = self.old.agents ++ agent ∷ [] } }
    {
        // There is room, so this takes no memory.
        let _ = self.agents.push(agent);
    }

    /// It names nobody.
    pub fn clear(&mut self)
        ensures { self.new ≡ record self.old { agents = [] } }
    {
        self.agents.clear();
    }

    /// The agents that it names, in order.
    pub fn agents(&self) -> &[u32]
        ensures { result.now ≡ self.now.agents }
    {
        self.agents.as_slice()
    }
}
