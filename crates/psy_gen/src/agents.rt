//! The code of agents.

ghost use Rattle.std.specs.Prelude.{◌≡◌, ◌+◌, ◌<◌, ◌≤◌, ◌^◌, ◌∷◌, ◌++◌, map, length, replicate, slice_get, Some, IfOk, OnOk};
ghost use Rattle.std.specs.List.{flat_map};
ghost use Rattle.psy_base.specs.declared.limits.TheConstants.{VARIABLES};
ghost use Rattle.psy_tree.specs.Paths.{total};
ghost use Rattle.psy_meaning.specs.Alike.{owned_copy, owned_from};
ghost use Rattle.psy_meaning.specs.Depths.{loops_in};
ghost use Rattle.psy_meaning.specs.Units.{IsOfText};
ghost use Rattle.psy_gen.specs.Emission.{codes_from, agent_code, agent_layout, agent_size, agent_entry, agent_entries, copy_init, stmts_places};

use crate::instrs::Instrs;
use crate::layout::Layout;
use crate::limits::limits_of;
use crate::statements::{Body, emit_stmts};
use psy_base::{Items, Memory};
use psy_code::{AgentCode, CopyInit, Instr};
use psy_tree::{AgentDecl, Slots, Unit, VarDecl};
use std::alloc::Global;

fn layout_of(alloc: Global, slots: &[Slots]) -> Result<Layout, Memory>
    requires { total (map (λ s. s.cells) slots.now) < 2 ^ 32 }
    ensures { IfOk result (λ layout. layout ≡ map (λ s. s.cells) slots.now) }
{
    let mut layout = Layout::new(alloc);
    for slot in slots {
        layout.add(slot.cells)?;
    }
    Ok(layout)
}

fn add_cells(cells: &mut Items<i32>, slot: &Slots) -> Result<(), Memory>
    ensures { OnOk result (cells.new ≡ cells.old ++ replicate slot.now.cells slot.now.init) }
{
    for _ in 0..slot.cells {
        cells.push(slot.init)?;
    }
    Ok(())
}

/// The cells that an agent begins with.
fn first_cells(alloc: Global, slots: &[Slots]) -> Result<Items<i32>, Memory>
    ensures { IfOk result (λ cells. cells ≡ flat_map (λ s. replicate s.cells s.init) slots.now) }
{
    let mut cells = Items::new(alloc);
    for slot in slots {
        add_cells(&mut cells, slot)?;
    }
    Ok(cells)
}

/// Adds the working copy of a variable that the agent owns.
fn add_copy(
    copies: &mut Items<CopyInit>,
    number: u32,
    variable: &VarDecl,
    agent: u32,
) -> Result<(), Memory>
    ensures { OnOk result (copies.new ≡ copies.old ++ map copy_init (owned_copy agent number variable.now variable.now.owner)) }
{
    let Some(owner) = variable.owner else {
        return Ok(());
    };
    if owner != agent {
        return Ok(());
    }
    copies.push(CopyInit {
        variable: number,
        init: variable.init,
    })?;
    Ok(())
}

/// The working copies of the variables that an agent owns.
fn copies_of(alloc: Global, variables: &[VarDecl], agent: u32) -> Result<Items<CopyInit>, Memory>
    requires { length variables.now ≤ VARIABLES }
    ensures { IfOk result (λ copies. copies ≡ map copy_init (owned_from agent 0 variables.now)) }
{
    let mut copies = Items::new(alloc);
    for (number, variable) in variables.iter().enumerate() {
        add_copy(&mut copies, number as u32, variable, agent)?;
    }
    Ok(copies)
}

/// The code of an agent, and where its actions begin: at the head of its body and behind each
/// `advance`.
fn emit_agent(alloc: Global, code: &mut Instrs, agent: &AgentDecl) -> Result<Body, Memory>
    requires cells { total (agent_layout agent.now) < 2 ^ 32 }
    requires room { length code.old + agent_size agent.now < 2 ^ 32 }
    ensures code { OnOk result (code.new ≡ code.old ++ agent_code agent.now (length code.old)) }
    ensures places { IfOk result (λ body. body.places ≡ length code.old ∷ stmts_places agent.now.stmts (length code.old)) }
    ensures loops { IfOk result (λ body. body.loops ≡ loops_in agent.now.stmts) }
{
    let layout = layout_of(alloc, agent.slots.as_slice())?;
    let head = code.place();
    let mut body = Body {
        places: Items::new(alloc),
        loops: 0,
    };
    body.places.push(head)?;
    emit_stmts(code, &mut body, &layout, agent.stmts.as_slice())?;
    code.push(Instr::Jump(head))?;
    Ok(body)
}

/// What the agent's machine is made from.
fn agent_of(
    alloc: Global,
    code: &mut Instrs,
    unit: &Unit,
    number: u32,
    agent: &AgentDecl,
) -> Result<AgentCode, Memory>
    requires text { IsOfText unit.now }
    requires own { slice_get unit.now.agents number ≡ Some agent.now }
    requires room { length code.old + agent_size agent.now < 2 ^ 32 }
    ensures code { OnOk result (code.new ≡ code.old ++ agent_code agent.now (length code.old)) }
    ensures entry { IfOk result (λ entry. entry ≡ agent_entry unit.now number agent.now (length code.old)) }
{
    let body = emit_agent(alloc, code, agent)?;
    let limits = limits_of(unit, number);
    Ok(AgentCode {
        points: body.places,
        cells: first_cells(alloc, agent.slots.as_slice())?,
        counters: body.loops,
        copies: copies_of(alloc, unit.variables.as_slice(), number)?,
        stack: limits.stack,
        frames: limits.frames,
    })
}

pub fn emit_agents(
    alloc: Global,
    code: &mut Instrs,
    unit: &Unit,
) -> Result<Items<AgentCode>, Memory>
    requires text { IsOfText unit.now }
    requires room { length code.old + total (map agent_size unit.now.agents) < 2 ^ 32 }
    ensures code { OnOk result (code.new ≡ code.old ++ codes_from agent_code agent_size unit.now.agents (length code.old)) }
    ensures entries { IfOk result (λ entries. entries ≡ agent_entries unit.now 0 unit.now.agents (length code.old)) }
{
    let mut entries = Items::new(alloc);
    for (number, agent) in unit.agents.as_slice().iter().enumerate() {
        entries.push(agent_of(alloc, code, unit, number as u32, agent)?)?;
    }
    Ok(entries)
}
