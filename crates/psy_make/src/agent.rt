//! The numbers of an agent of a made program.
ghost use Rattle.std.specs.Prelude.{◌≡◌, ◌<◌, ◌+◌, ◌*◌, ℕ, IfOk};
ghost use Rattle.psy_make.specs.Generator.{drawn, count_of, agent_of, agents_of};

use crate::generator::Generator;
use psy_base::Memory;
use std::alloc::Global;

/// The numbers of an agent of the made program, and of the variable that it owns.
#[derive(Clone, Copy, Debug, PartialEq, Eq)]
pub struct Agent {
    /// Its place among the agents, from 0. Its name is A with this number, and that of its variable v with it.
    pub number: u32,
    /// The number of its clock: 0, 1 or 2.
    pub clock: u32,
    /// The number of the variable that it looks at.
    pub looks_at: u32,
    /// What it multiplies by, from 1 to 9.
    pub factor: u32,
}

// The next agent, of so many.
fn draw_agent(generator: &mut Generator, number: u32, count: u32) -> Agent
    requires { 0 < count }
    ensures { (seed : ℕ) → generator.old.x ≡ drawn seed (3 * number + 1) → count ≡ count_of seed →
        (result ≡ agent_of seed number) × (generator.new.x ≡ drawn seed (3 * (number + 1) + 1)) }
{
    let clock = generator.draw(3);
    let looks_at = generator.draw(count);
    let factor = 1 + generator.draw(9);
    Agent {
        number,
        clock,
        looks_at,
        factor,
    }
}

/// The agents that are made from this number. The only error is want of memory.
pub fn draw_agents(alloc: Global, seed: u32) -> Result<Vec<Agent>, Memory>
    ensures { IfOk result (λ agents. agents.items ≡ agents_of seed) }
{
    let mut generator = Generator { x: seed };
    let count = 8 + generator.draw(9);
    let mut agents = Vec::new(alloc);
    for number in 0..count {
        agents.push(draw_agent(&mut generator, number, count))?;
    }
    Ok(agents)
}
