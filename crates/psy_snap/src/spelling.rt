//! From an opening to bytes.
ghost use Rattle.std.specs.Prelude.{◌≡◌, ◌++◌, ◌<◌, ◌≤◌, ◌^◌, Err, IfOk, OnOk, length};
ghost use Rattle.std.specs.List.{flat_map};
ghost use Rattle.psy_base.specs.declared.limits.TheConstants.{FILE_BYTES};
ghost use Rattle.psy_snap.specs.declared.fault.SpellFault.TheVariants.{Large};
ghost use Rattle.psy_snap.specs.Bytes.{action_bytes, agent_bytes, begun_bytes, mark, message_bytes, number_bytes, reach_bytes, slack_bytes, spelling};
ghost use Rattle.psy_snap.specs.Bytes.{key_bytes, kind_of, stream_bytes, variable_bytes};

use crate::fault::SpellFault;
use crate::page::{Page, put_cells, put_long, put_number, put_value, put_values};
use psy_base::Message;
use psy_dates::{AgentOpening, Begun, NextAction, Opening, StreamOpening, VarOpening};
use std::alloc::Global;

/// Which kind an agent is of.
fn kind_of(begun: &Option<Begun>) -> u32
    ensures { result ≡ kind_of begun.now }
{
    match begun {
        None => 0,
        Some(
            Begun {
                copies: _,
                action: Some(_),
            },
        ) => 1,
        Some(
            Begun {
                copies: _,
                action: None,
            },
        ) => 2,
    }
}

fn put_action(out: &mut Page, action: &Option<NextAction>) -> Result<(), SpellFault>
    ensures written { OnOk result (out.new ≡ out.old ++ action_bytes action.now) }
    ensures large { result ≡ Err Large → FILE_BYTES < length (out.old ++ action_bytes action.now) }
{
    let Some(action) = action else {
        return Ok(());
    };
    put_long(out, action.number)?;
    put_number(out, action.point)?;
    put_cells(out, action.cells.as_slice())?;
    Ok(())
}

fn put_begun(out: &mut Page, begun: &Option<Begun>) -> Result<(), SpellFault>
    ensures written { OnOk result (out.new ≡ out.old ++ begun_bytes begun.now) }
    ensures large { result ≡ Err Large → FILE_BYTES < length (out.old ++ begun_bytes begun.now) }
{
    let Some(begun) = begun else {
        return Ok(());
    };
    put_action(out, &begun.action)?;
    put_values(out, begun.copies.as_slice())?;
    Ok(())
}

fn put_slack(out: &mut Page, slack: Option<u64>) -> Result<(), SpellFault>
    ensures written { OnOk result (out.new ≡ out.old ++ slack_bytes slack) }
    ensures large { result ≡ Err Large → FILE_BYTES < length (out.old ++ slack_bytes slack) }
{
    let Some(slack) = slack else {
        put_number(out, 0)?;
        return Ok(());
    };
    put_number(out, 1)?;
    put_long(out, slack)?;
    Ok(())
}

fn put_reach(out: &mut Page, reach: Option<u32>) -> Result<(), SpellFault>
    ensures written { OnOk result (out.new ≡ out.old ++ reach_bytes reach) }
    ensures large { result ≡ Err Large → FILE_BYTES < length (out.old ++ reach_bytes reach) }
{
    let Some(reach) = reach else {
        put_number(out, 0)?;
        return Ok(());
    };
    put_number(out, 1)?;
    put_number(out, reach)?;
    Ok(())
}

fn put_agent(out: &mut Page, agent: &AgentOpening) -> Result<(), SpellFault>
    ensures written { OnOk result (out.new ≡ out.old ++ agent_bytes agent.now) }
    ensures large { result ≡ Err Large → FILE_BYTES < length (out.old ++ agent_bytes agent.now) }
{
    put_number(out, kind_of(&agent.begun))?;
    put_begun(out, &agent.begun)?;
    put_long(out, agent.count)?;
    put_slack(out, agent.slack)?;
    Ok(())
}

fn put_agents(out: &mut Page, agents: &[AgentOpening]) -> Result<(), SpellFault>
    ensures written { OnOk result (out.new ≡ out.old ++ flat_map agent_bytes agents.now) }
    ensures large { result ≡ Err Large → FILE_BYTES < length (out.old ++ flat_map agent_bytes agents.now) }
{
    'agents: for agent in agents {
        if let Err(fault) = put_agent(out, agent) {
            return Err(fault);
        }
    }
    Ok(())
}

fn put_variable(out: &mut Page, variable: &VarOpening) -> Result<(), SpellFault>
    ensures written { OnOk result (out.new ≡ out.old ++ variable_bytes variable.now) }
    ensures large { result ≡ Err Large → FILE_BYTES < length (out.old ++ variable_bytes variable.now) }
{
    put_values(out, variable.values.as_slice())?;
    put_reach(out, variable.reach)?;
    Ok(())
}

fn put_variables(out: &mut Page, variables: &[VarOpening]) -> Result<(), SpellFault>
    ensures written { OnOk result (out.new ≡ out.old ++ flat_map variable_bytes variables.now) }
    ensures large { result ≡ Err Large → FILE_BYTES < length (out.old ++ flat_map variable_bytes variables.now) }
{
    'variables: for variable in variables {
        if let Err(fault) = put_variable(out, variable) {
            return Err(fault);
        }
    }
    Ok(())
}

// The numbers of a message by which messages are ordered.
fn put_keys(out: &mut Page, message: &Message) -> Result<(), SpellFault>
    ensures written { OnOk result (out.new ≡ out.old ++ key_bytes message.now) }
    ensures large { result ≡ Err Large → FILE_BYTES < length (out.old ++ key_bytes message.now) }
{
    put_long(out, message.visible)?;
    put_long(out, message.entry)?;
    put_number(out, message.sender)?;
    put_number(out, message.number)?;
    Ok(())
}

fn put_message(out: &mut Page, message: &Message) -> Result<(), SpellFault>
    ensures written { OnOk result (out.new ≡ out.old ++ message_bytes message.now) }
    ensures large { result ≡ Err Large → FILE_BYTES < length (out.old ++ message_bytes message.now) }
{
    put_keys(out, message)?;
    put_long(out, message.expiry)?;
    put_value(out, &message.value)?;
    Ok(())
}

fn put_messages(out: &mut Page, messages: &[Message]) -> Result<(), SpellFault>
    ensures written { OnOk result (out.new ≡ out.old ++ flat_map message_bytes messages.now) }
    ensures large { result ≡ Err Large → FILE_BYTES < length (out.old ++ flat_map message_bytes messages.now) }
{
    'messages: for message in messages {
        if let Err(fault) = put_message(out, message) {
            return Err(fault);
        }
    }
    Ok(())
}

/// Adds how many there are, as far as 32 bits go.
#[tactic(auto, using(crate::proofs::Written::low_bytes))]
fn put_len(out: &mut Page, len: usize) -> Result<(), SpellFault>
    ensures written { OnOk result (out.new ≡ out.old ++ number_bytes len) }
    ensures large { result ≡ Err Large → FILE_BYTES < length (out.old ++ number_bytes len) }
{
    put_number(out, (len % 0x1_0000_0000) as u32)?;
    Ok(())
}

fn put_stream(out: &mut Page, stream: &StreamOpening) -> Result<(), SpellFault>
    ensures written { OnOk result (out.new ≡ out.old ++ stream_bytes stream.now) }
    ensures large { result ≡ Err Large → FILE_BYTES < length (out.old ++ stream_bytes stream.now) }
{
    put_number(out, stream.held)?;
    put_len(out, stream.messages.len())?;
    put_messages(out, stream.messages.as_slice())?;
    Ok(())
}

fn put_streams(out: &mut Page, streams: &[StreamOpening]) -> Result<(), SpellFault>
    ensures written { OnOk result (out.new ≡ out.old ++ flat_map stream_bytes streams.now) }
    ensures large { result ≡ Err Large → FILE_BYTES < length (out.old ++ flat_map stream_bytes streams.now) }
{
    'streams: for stream in streams {
        if let Err(fault) = put_stream(out, stream) {
            return Err(fault);
        }
    }
    Ok(())
}

#[tactic(auto, unfolding(crate::specs::Bytes::spelling))]
fn put_opening(out: &mut Page, opening: &Opening) -> Result<(), SpellFault>
    requires { opening.now.date < 2 ^ 32 }
    ensures written { OnOk result (out.new ≡ out.old ++ spelling opening.now) }
    ensures large { result ≡ Err Large → FILE_BYTES < length (out.old ++ spelling opening.now) }
{
    out.put(b"PSYS\x01")?;
    put_number(out, opening.date as u32)?;
    put_agents(out, opening.agents.as_slice())?;
    put_variables(out, opening.variables.as_slice())?;
    put_streams(out, opening.streams.as_slice())?;
    Ok(())
}

/// The one spelling of an opening. `Large` exactly where it passes 262,144 bytes, unless memory runs out before; no more than these are written.
pub fn spell(alloc: Global, opening: &Opening) -> Result<Vec<u8>, SpellFault>
    requires date { opening.now.date < 2 ^ 32 }
    ensures spelled { IfOk result (λ out. out.items ≡ spelling opening.now) }
    ensures few { IfOk result (λ out. length out.items ≤ FILE_BYTES) }
    ensures large { result ≡ Err Large → FILE_BYTES < length (spelling opening.now) }
{
    let mut out = Page::new(alloc);
    put_opening(&mut out, opening)?;
    Ok(out.into_bytes())
}
