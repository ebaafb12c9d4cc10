//! The places where ways through a program's code begin: those of its points.

ghost use Rattle.std.specs.Prelude.{◌≡◌, ◌<◌, ◌↔◌, ℕ, length, IfOk, OnOk};
ghost use Rattle.psy_meaning.specs.CodeWays.{agent_code_at, place_of};
ghost use Rattle.psy_flow.specs.CodeLists.{AreStarts, AreStartsUpTo};

use crate::point_lists::{place_at, points_in};
use psy_base::{Items, Memory};
use psy_code::Code;
use std::alloc::Global;

// Adds those of one more agent.
fn add_starts(starts: &mut Items<usize>, code: &Code, agent: usize) -> Result<(), Memory>
    requires agent { agent < length code.now.agents }
    requires before { AreStartsUpTo code.now agent 0 starts.old }
    ensures { OnOk result (AreStartsUpTo code.now agent (length (agent_code_at code.now agent).points) starts.new) }
{
    'points: for point in 0..points_in(code, agent) {
        starts.push(place_at(code, agent, point))?;
    }
    Ok(())
}

/// The places of all points of all agents. The only error is want of memory.
pub fn starts(alloc: Global, code: &Code) -> Result<Items<usize>, Memory>
    ensures { IfOk result (AreStarts code.now) }
{
    let mut starts = Items::new(alloc);
    'agents: for agent in 0..code.agents.len() {
        add_starts(&mut starts, code, agent)?;
    }
    Ok(starts)
}
