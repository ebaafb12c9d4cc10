//! By agent and point, the numbers that rows of bits have at its place in the code.

ghost use Rattle.std.specs.Prelude.{◌≡◌, ◌<◌, ◌≤◌, length, IfOk};
ghost use Rattle.psy_base.specs.declared.limits.TheConstants.{POINTS};
ghost use Rattle.psy_meaning.specs.CodeWays.{agent_code_at, place_of};
ghost use Rattle.psy_flow.specs.CodeLists.{AreAgentNumbers, AreAllNumbers};

use crate::numbers::numbers_at;
use psy_base::{Items, Memory};
use psy_code::Code;
use psy_lists::push;
use std::alloc::Global;

/// Where a point of an agent stands in the code.
pub fn place_at(code: &Code, agent: usize, point: usize) -> usize
    requires agent { agent < length code.now.agents }
    requires point { point < length (agent_code_at code.now agent).points }
    ensures { result ≡ place_of code.now agent point }
{
    code.agents.as_slice()[agent].points.as_slice()[point] as usize
}

/// How many points an agent has in the code.
pub fn points_in(code: &Code, agent: usize) -> usize
    requires { agent < length code.now.agents }
    ensures { result ≡ length (agent_code_at code.now agent).points }
{
    code.agents.as_slice()[agent].points.len()
}

// By point of the agent of this number.
fn agent_numbers(
    alloc: Global,
    code: &Code,
    rows: &[Items<u64>],
    agent: usize,
) -> Result<Items<Items<u32>>, Memory>
    requires agent { agent < length code.now.agents }
    requires few { length rows.now ≤ POINTS }
    ensures { IfOk result (AreAgentNumbers rows.now code.now agent) }
{
    let mut lists = Items::new(alloc);
    'points: for point in 0..points_in(code, agent) {
        let numbers = numbers_at(alloc, rows, place_at(code, agent, point))?;
        push(&mut lists, numbers)?;
    }
    Ok(lists)
}

/// By agent and point, the numbers that the rows have at its place, in rising order. The only error is want of memory.
pub fn all_numbers(
    alloc: Global,
    code: &Code,
    rows: &[Items<u64>],
) -> Result<Items<Items<Items<u32>>>, Memory>
    requires few { length rows.now ≤ POINTS }
    ensures { IfOk result (AreAllNumbers rows.now code.now) }
{
    let mut lists = Items::new(alloc);
    'agents: for agent in 0..code.agents.len() {
        let own = agent_numbers(alloc, code, rows, agent)?;
        push(&mut lists, own)?;
    }
    Ok(lists)
}
