//! The lines of a made program's text.
ghost use Rattle.std.specs.Prelude.{◌≡◌, ◌++◌, codes, OnOk};
ghost use Rattle.psy_make.specs.Text.{ended, temporal_line, agent_line, opening, taking, sending, closing};

use crate::agent::Agent;
use psy_base::Memory;
use psy_text::write::add_labelled;

/// Adds the line of the variable that the agent owns. The only error is want of memory.
pub fn add_temporal(text: &mut Vec<u8>, agent: &Agent) -> Result<(), Memory>
    ensures { OnOk result (text.new.items ≡ text.old.items ++ ended (temporal_line agent.now)) }
{
    add_labelled(text, b"temporal v", agent.number as u64)?;
    add_labelled(text, b" of A", agent.number as u64)?;
    add_labelled(text, b" on c", agent.clock as u64)?;
    add_labelled(text, b" = ", agent.number as u64)?;
    text.extend_from_slice(b" depth 1;\n")?;
    Ok(())
}

// The agent's name, its clock and what it computes.
#[tactic(auto, unfolding(crate::specs::Text::opening))]
fn add_opening(text: &mut Vec<u8>, agent: &Agent) -> Result<(), Memory>
    ensures { OnOk result (text.new.items ≡ text.old.items ++ opening agent.now) }
{
    add_labelled(text, b"agent A", agent.number as u64)?;
    add_labelled(text, b" on c", agent.clock as u64)?;
    add_labelled(
        text,
        b" budget 50 { int n = 0; body { n = n * ",
        agent.factor as u64,
    )?;
    add_labelled(text, b" + past(v", agent.looks_at as u64)?;
    text.extend_from_slice(b", 0);")?;
    Ok(())
}

// What only agent 0 does: it takes from the stream.
fn add_taking(text: &mut Vec<u8>, number: u32) -> Result<(), Memory>
    ensures { OnOk result (text.new.items ≡ text.old.items ++ taking number) }
{
    if number == 0 {
        text.extend_from_slice(b" if (ready(bus)) { n = n + take(bus); }")?;
    }
    Ok(())
}

// What each second agent does: it sends to the stream.
fn add_sending(text: &mut Vec<u8>, number: u32) -> Result<(), Memory>
    ensures { OnOk result (text.new.items ≡ text.old.items ++ sending number) }
{
    if number % 2 == 1 {
        text.extend_from_slice(b" send n to bus after 0 on c0;")?;
    }
    Ok(())
}

// What the agent publishes, and how far it advances.
#[tactic(auto, unfolding(crate::specs::Text::closing))]
fn add_closing(text: &mut Vec<u8>, agent: &Agent) -> Result<(), Memory>
    ensures { OnOk result (text.new.items ≡ text.old.items ++ closing agent.now) }
{
    add_labelled(text, b" v", agent.number as u64)?;
    add_labelled(
        text,
        b" = n; if (n & 1) { advance 1 on c",
        agent.clock as u64,
    )?;
    add_labelled(text, b"; } else { advance 2 on c", agent.clock as u64)?;
    text.extend_from_slice(b"; } } }")?;
    Ok(())
}

/// Adds the line of the agent. The only error is want of memory.
pub fn add_agent(text: &mut Vec<u8>, agent: &Agent) -> Result<(), Memory>
    ensures { OnOk result (text.new.items ≡ text.old.items ++ ended (agent_line agent.now)) }
{
    add_opening(text, agent)?;
    add_taking(text, agent.number)?;
    add_sending(text, agent.number)?;
    add_closing(text, agent)?;
    text.extend_from_slice(b"\n")?;
    Ok(())
}
