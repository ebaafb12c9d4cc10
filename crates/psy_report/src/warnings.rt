//! What looks like a slip.
ghost use Rattle.std.specs.Prelude.{◌≡◌, ◌++◌, OnOk, flat_map, length};
ghost use Rattle.std.specs.List.{range_with_len};
ghost use Rattle.psy_tree.specs.Parts.{variable_at};
ghost use Rattle.psy_report.specs.Warnings.{cost_text, costs_text, depth_text, input_text, is_looked_at, is_looked_back_at, is_sent_to, stream_text};

use crate::agents::budget_at;
use crate::measures::{Known, at, list_at};
use psy_feed::{owner_of, stmts_look, stmts_look_back, stmts_send, stream_name, variable_name};
use psy_page::{Piece, fill};
use psy_tree::{AgentDecl, Unit};
use std::alloc::AllocError;

/// An action of an agent, by its point, may cost more than its budget.
pub const OVER: &[u8] =
    b"warning agent $: an action from point $ may cost $ cycles, and its budget is $\n";
/// A variable has a depth that no look asks for.
pub const DEEP: &[u8] =
    b"warning variable $: its depth is $, and no look goes back behind its last value\n";
/// Nobody sends to a stream.
pub const UNSENT: &[u8] = b"warning stream $: nobody sends to it\n";
/// Nobody looks at an input.
pub const UNLOOKED: &[u8] = b"warning input $: nobody looks at it\n";

/// A line for each point of the agent of a number from which an action may cost more than its budget.
pub fn add_costs(out: &mut Vec<u8>, known: Known, number: u32) -> Result<(), AllocError>
    ensures { OnOk result (out.new.items ≡ out.old.items ++ costs_text known.entry.unit.now known.entry.measures.now number) }
{
    match known.unit.agents.as_slice().get(number as usize) {
        Some(agent) => add_costs_of(out, agent, list_at(&known.measures.costs, number)),
        None => Ok(()),
    }
}

fn add_costs_of(out: &mut Vec<u8>, agent: &AgentDecl, costs: &[u64]) -> Result<(), AllocError>
    ensures { OnOk result (out.new.items ≡ out.old.items ++ flat_map (cost_text agent.now costs.now) (range_with_len 0 (length costs.now))) }
{
    'points: for point in 0..costs.len() {
        add_cost(out, agent, costs, point)?;
    }
    Ok(())
}

fn add_cost(
    out: &mut Vec<u8>,
    agent: &AgentDecl,
    costs: &[u64],
    point: usize,
) -> Result<(), AllocError>
    ensures { OnOk result (out.new.items ≡ out.old.items ++ cost_text agent.now costs.now point) }
{
    let cost = at(costs, point);
    let budget = u64::from(budget_at(agent.points.as_slice(), point));
    if cost <= budget {
        return Ok(());
    }
    let name = Piece::Raw(agent.name.bytes());
    let pieces = [
        name,
        Piece::Long(point as u64),
        Piece::Long(cost),
        Piece::Long(budget),
    ];
    fill(out, OVER, &pieces)
}

/// The line of a variable or an input of a depth above 1 at which no look goes back.
pub fn add_depth(out: &mut Vec<u8>, unit: &Unit, variable: u32) -> Result<(), AllocError>
    ensures { OnOk result (out.new.items ≡ out.old.items ++ depth_text unit.now variable) }
{
    let depth = depth_of(unit, variable);
    if depth <= 1 || is_looked_back_at(unit, variable) {
        return Ok(());
    }
    fill(
        out,
        DEEP,
        &[
            Piece::Raw(variable_name(unit, variable)),
            Piece::Number(depth),
        ],
    )
}

/// The line of a stream to which nobody sends.
pub fn add_stream(out: &mut Vec<u8>, unit: &Unit, stream: u32) -> Result<(), AllocError>
    ensures { OnOk result (out.new.items ≡ out.old.items ++ stream_text unit.now stream) }
{
    if is_sent_to(unit, stream) {
        return Ok(());
    }
    fill(out, UNSENT, &[Piece::Raw(stream_name(unit, stream))])
}

/// The line of an input at which nobody looks.
pub fn add_input(out: &mut Vec<u8>, unit: &Unit, variable: u32) -> Result<(), AllocError>
    ensures { OnOk result (out.new.items ≡ out.old.items ++ input_text unit.now variable) }
{
    match owner_of(unit, variable) {
        None if !is_looked_at(unit, variable) => {
            fill(out, UNLOOKED, &[Piece::Raw(variable_name(unit, variable))])
        }
        _ => Ok(()),
    }
}

fn depth_of(unit: &Unit, variable: u32) -> u32
    ensures { result ≡ (variable_at unit.now variable).depth }
{
    match unit.variables.as_slice().get(variable as usize) {
        Some(variable) => variable.depth,
        None => 0,
    }
}

fn is_sent_to(unit: &Unit, stream: u32) -> bool
    ensures { result ≡ is_sent_to unit.now stream }
{
    let agents = unit.agents.as_slice();
    agents
        .iter()
        .any(|agent| stmts_send(agent.stmts.as_slice(), stream))
}

fn is_looked_at(unit: &Unit, variable: u32) -> bool
    ensures { result ≡ is_looked_at unit.now variable }
{
    let agents = unit.agents.as_slice();
    agents
        .iter()
        .any(|agent| stmts_look(agent.stmts.as_slice(), variable))
}

fn is_looked_back_at(unit: &Unit, variable: u32) -> bool
    ensures { result ≡ is_looked_back_at unit.now variable }
{
    let agents = unit.agents.as_slice();
    agents.iter().any(|agent| stmts_look_back(agent.stmts.as_slice(), variable, 1))
}
