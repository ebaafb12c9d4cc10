//! The text of a program that is made from a number.
ghost use Rattle.std.specs.Prelude.{◌≡◌, ◌++◌, map, flat_map, IfOk, OnOk};
ghost use Rattle.psy_make.specs.Text.{ended, temporal_line, agent_line, made_text};

use crate::agent::{Agent, draw_agents};
use crate::lines::{add_agent, add_temporal};
use psy_base::Memory;
use std::alloc::Global;

// What each made program begins with: its tick, its clocks and its stream.
const HEAD: &[u8] = b"\
    tick 1000;\n\
    clock c0 = 1 * tick;\n\
    clock c1 = 4 * c0 + 1;\n\
    clock c2 = 5 * c1 + 2;\n\
    stream bus to A0 keep 1 on c1;\n";

fn add_temporals(text: &mut Vec<u8>, agents: &[Agent]) -> Result<(), Memory>
    ensures { OnOk result (text.new.items ≡ text.old.items ++ flat_map ended (map temporal_line agents.now)) }
{
    for agent in agents {
        add_temporal(text, agent)?;
    }
    Ok(())
}

fn add_agents(text: &mut Vec<u8>, agents: &[Agent]) -> Result<(), Memory>
    ensures { OnOk result (text.new.items ≡ text.old.items ++ flat_map ended (map agent_line agents.now)) }
{
    for agent in agents {
        add_agent(text, agent)?;
    }
    Ok(())
}

/// The text of the program that is made from a number. It has 8 to 16 agents, and the same number gives the same text. The
/// only error is want of memory.
#[tactic(auto, unfolding(crate::specs::Text::made_text))]
pub fn make(alloc: Global, seed: u32) -> Result<Vec<u8>, Memory>
    ensures { IfOk result (λ text. text.items ≡ made_text seed) }
{
    let agents = draw_agents(alloc, seed)?;
    let mut text = Vec::from_slice(alloc, HEAD)?;
    add_temporals(&mut text, agents.as_slice())?;
    add_agents(&mut text, agents.as_slice())?;
    Ok(text)
}
