//! The text of the flow.
ghost use Rattle.std.specs.Prelude.{◌≡◌, ◌++◌, IfOk, OnOk, flat_map};
ghost use Rattle.std.specs.List.{range_with_len};
ghost use Rattle.psy_history.specs.Feeding.{pasts_in};
ghost use Rattle.psy_meaning.specs.Sendings.{sendings_in};
ghost use Rattle.psy_meaning.specs.Units.{IsBare};
ghost use Rattle.psy_tree.specs.Parts.{agent_at, stream_at, variable_at};
ghost use Rattle.psy_feed.specs.Arrows.{arrow_at, arrows_of, looks, looks_of, sends, sends_of, source_by};
ghost use Rattle.psy_feed.specs.Drawing.{agent_text, arrow_text, flow_of, input_text, name_at};

use crate::looks::stmts_look;
use crate::names::{agent_name, owner_of, stream_name, variable_name};
use crate::sends::stmts_send;
use psy_page::{Piece, fill};
use psy_tree::{AgentDecl, Unit, VarDecl};
use std::alloc::{AllocError, Global};

/// How the text begins.
pub const HEAD: &[u8] = b"digraph flow {\n  rankdir=LR;\n";
/// The node of an agent, by its name.
pub const AGENT: &[u8] = b"  \"$\" [shape=box];\n";
/// The node of an input.
pub const INPUT: &[u8] = b"  \"$\" [shape=oval];\n";
/// The arrow of a variable: from a node to another, and the variable's name.
pub const LOOK: &[u8] = b"  \"$\" -> \"$\" [label=\"$\"];\n";
/// The arrow of a stream.
pub const SEND: &[u8] = b"  \"$\" -> \"$\" [label=\"$\", style=dashed];\n";
/// How the text ends.
pub const END: &[u8] = b"}\n";

/// What goes along an arrow: what a variable publishes, or the messages of a stream.
#[derive(Clone, Copy)]
pub enum Carried {
    Variable(u32),
    Stream(u32),
}

/// Who feeds whom in a program, in the language DOT: a box for each agent, an oval for each input; an arrow from the owner of a variable, or
/// from an input, to each agent whose text looks at it by `past`, and a dashed one from each agent that sends to a stream to the stream's
/// receiver. The only error is want of memory.
pub fn flow(alloc: Global, unit: &Unit) -> Result<Vec<u8>, AllocError>
    requires bare { IsBare unit.now }
    ensures { IfOk result (λ text. text.items ≡ flow_of unit.now) }
{
    let mut out = Vec::from_slice(alloc, HEAD)?;
    add_agents(&mut out, unit.agents.as_slice())?;
    add_inputs(&mut out, unit.variables.as_slice())?;
    add_looks(&mut out, unit)?;
    add_sends(&mut out, unit)?;
    out.extend_from_slice(END)?;
    Ok(out)
}

// A box for each agent.
fn add_agents(out: &mut Vec<u8>, agents: &[AgentDecl]) -> Result<(), AllocError>
    ensures { OnOk result (out.new.items ≡ out.old.items ++ flat_map agent_text agents.now) }
{
    'agents: for agent in agents {
        fill(out, AGENT, &[Piece::Raw(agent.name.bytes())])?;
    }
    Ok(())
}

// An oval for each variable without an owner.
fn add_inputs(out: &mut Vec<u8>, variables: &[VarDecl]) -> Result<(), AllocError>
    ensures { OnOk result (out.new.items ≡ out.old.items ++ flat_map input_text variables.now) }
{
    'variables: for variable in variables {
        add_input(out, variable)?;
    }
    Ok(())
}

fn add_input(out: &mut Vec<u8>, variable: &VarDecl) -> Result<(), AllocError>
    ensures { OnOk result (out.new.items ≡ out.old.items ++ input_text variable.now) }
{
    match variable.owner {
        Some(_) => Ok(()),
        None => fill(out, INPUT, &[Piece::Raw(variable.name.bytes())]),
    }
}

// The arrows of all variables.
fn add_looks(out: &mut Vec<u8>, unit: &Unit) -> Result<(), AllocError>
    requires bare { IsBare unit.now }
    ensures { OnOk result (out.new.items ≡ out.old.items ++ flat_map (arrow_text unit.now) (looks_of unit.now)) }
{
    'variables: for variable in 0..unit.variables.len() as u32 {
        add_arrows(out, unit, Carried::Variable(variable))?;
    }
    Ok(())
}

// The arrows of all streams.
fn add_sends(out: &mut Vec<u8>, unit: &Unit) -> Result<(), AllocError>
    requires bare { IsBare unit.now }
    ensures { OnOk result (out.new.items ≡ out.old.items ++ flat_map (arrow_text unit.now) (sends_of unit.now)) }
{
    'streams: for stream in 0..unit.streams.len() as u32 {
        add_arrows(out, unit, Carried::Stream(stream))?;
    }
    Ok(())
}

// The arrows of a variable or a stream.
fn add_arrows(out: &mut Vec<u8>, unit: &Unit, carried: Carried) -> Result<(), AllocError>
    requires bare { IsBare unit.now }
    ensures { OnOk result (out.new.items ≡ out.old.items ++ flat_map (arrow_text unit.now) (arrows_of unit.now carried)) }
{
    'agents: for agent in 0..unit.agents.len() as u32 {
        add_arrow(out, unit, carried, agent)?;
    }
    Ok(())
}

// The arrow of a variable to an agent that looks at it, or of a stream from an agent that sends to it.
fn add_arrow(out: &mut Vec<u8>, unit: &Unit, carried: Carried, agent: u32) -> Result<(), AllocError>
    ensures { OnOk result (out.new.items ≡ out.old.items ++ flat_map (arrow_text unit.now) (arrow_at unit.now carried agent)) }
{
    let name = Piece::Raw(agent_name(unit, agent));
    match carried {
        Carried::Variable(variable) if agent_looks(unit, agent, variable) => {
            let from = Piece::Raw(source_name(unit, variable));
            fill(
                out,
                LOOK,
                &[from, name, Piece::Raw(variable_name(unit, variable))],
            )
        }
        Carried::Stream(stream) if agent_sends(unit, agent, stream) => {
            let to = Piece::Raw(receiver_name(unit, stream));
            fill(
                out,
                SEND,
                &[name, to, Piece::Raw(stream_name(unit, stream))],
            )
        }
        _ => Ok(()),
    }
}

// Whether the text of an agent looks at a variable.
fn agent_looks(unit: &Unit, agent: u32, variable: u32) -> bool
    ensures { result ≡ looks variable (pasts_in (agent_at unit.now agent).stmts) }
{
    match unit.agents.as_slice().get(agent as usize) {
        Some(agent) => stmts_look(agent.stmts.as_slice(), variable),
        None => false,
    }
}

// Whether the text of an agent sends to a stream.
fn agent_sends(unit: &Unit, agent: u32, stream: u32) -> bool
    ensures { result ≡ sends stream (sendings_in (agent_at unit.now agent).stmts) }
{
    match unit.agents.as_slice().get(agent as usize) {
        Some(agent) => stmts_send(agent.stmts.as_slice(), stream),
        None => false,
    }
}

// The name of the node from which the arrows of a variable go.
fn source_name(unit: &Unit, variable: u32) -> &[u8]
    ensures { result.now ≡ name_at unit.now (source_by variable (variable_at unit.now variable).owner) }
{
    match owner_of(unit, variable) {
        Some(owner) => agent_name(unit, owner),
        None => variable_name(unit, variable),
    }
}

// The name of the agent to which a stream's messages go.
fn receiver_name(unit: &Unit, stream: u32) -> &[u8]
    ensures { result.now ≡ (agent_at unit.now (stream_at unit.now stream).receiver).name }
{
    match unit.streams.as_slice().get(stream as usize) {
        Some(stream) => agent_name(unit, stream.receiver),
        None => agent_name(unit, 0),
    }
}
