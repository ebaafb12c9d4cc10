//! Of which processors the agents of a program are.
ghost use Rattle.std.specs.Prelude.{◌≡◌, ◌++◌, IfOk, OnOk, map};
ghost use Rattle.psy_draw.specs.Homes.{housed_of};
ghost use Rattle.psy_match.specs.Homes.{home_of, homes_in};

use psy_draw::Home;
use psy_tree::{AgentDecl, Unit};
use std::alloc::{AllocError, Global};

/// The agents of a program that aren't of processor 0, each with its processor.
pub fn homes(alloc: Global, unit: &Unit) -> Result<Vec<Home<'_>>, AllocError>
    ensures { IfOk result (λ homes. map housed_of homes.items ≡ homes_in unit.now) }
{
    let mut homes = Vec::new(alloc);
    for agent in unit.agents.as_slice() {
        add_home(&mut homes, agent)?;
    }
    Ok(homes)
}

fn add_home<'u>(homes: &mut Vec<Home<'u>>, agent: &'u AgentDecl) -> Result<(), AllocError>
    ensures { OnOk result (map housed_of homes.new.items ≡ map housed_of homes.old.items ++ home_of agent.now) }
{
    if agent.processor == 0 {
        return Ok(());
    }
    Ok(homes.push(Home {
        agent: agent.name.bytes(),
        processor: agent.processor,
    })?)
}
