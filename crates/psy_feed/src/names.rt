//! The names of a program's parts, by number; none where there is no part of that number.
ghost use Rattle.std.specs.Prelude.{◌≡◌};
ghost use Rattle.psy_tree.specs.Parts.{agent_at, stream_at, variable_at};

use psy_tree::Unit;

/// The name of an agent.
pub fn agent_name(unit: &Unit, agent: u32) -> &[u8]
    ensures { result.now ≡ (agent_at unit.now agent).name }
{
    match unit.agents.as_slice().get(agent as usize) {
        Some(agent) => agent.name.bytes(),
        None => b"",
    }
}

/// The name of a variable.
pub fn variable_name(unit: &Unit, variable: u32) -> &[u8]
    ensures { result.now ≡ (variable_at unit.now variable).name }
{
    match unit.variables.as_slice().get(variable as usize) {
        Some(variable) => variable.name.bytes(),
        None => b"",
    }
}

/// The name of a stream.
pub fn stream_name(unit: &Unit, stream: u32) -> &[u8]
    ensures { result.now ≡ (stream_at unit.now stream).name }
{
    match unit.streams.as_slice().get(stream as usize) {
        Some(stream) => stream.name.bytes(),
        None => b"",
    }
}

/// The agent that owns a variable; none where it is an input.
pub fn owner_of(unit: &Unit, variable: u32) -> Option<u32>
    ensures { result ≡ (variable_at unit.now variable).owner }
{
    match unit.variables.as_slice().get(variable as usize) {
        Some(variable) => variable.owner,
        None => None,
    }
}
