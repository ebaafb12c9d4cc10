//! The agents.
ghost use Rattle.std.specs.Prelude.{◌≡◌, ◌++◌, ◌+◌, ◌<◌, ◌≤◌, ◌^◌, ◌∷◌, [], IfOk, OnOk, List, ℕ, drop, length, map};
ghost use Rattle.psy_base.specs.declared.limits.TheConstants.{VARIABLES};
ghost use Rattle.psy_image.specs.Images.{agent, agents, copies, copy, declaration, head, machine, judged, owned_from, owned_one, point, points};
ghost use Rattle.psy_image.specs.Reading.{Gives, read};

use crate::fault::ReadError;
use crate::fields::{any, below, name, signed, within};
use crate::functions::values;
use crate::limits::{AGENT_CELLS, COUNTERS, FRAMES, STACK};
use crate::seen::{Claim, Seen};
use psy_base::limits::{ADVANCE, AGENTS, BUDGET, POINTS, PROCESSORS};
use psy_base::{Items, Memory, Text};
use psy_code::{AgentCode, CopyInit};
use psy_tree::{AgentDecl, Point, VarDecl};
use std::alloc::Global;

/// The agents so far, by their declarations and by their code, and all names so far.
#[derive(Debug, Drop)]
pub struct AgentLists {
    pub names: Items<Text>,
    pub agents: Items<AgentDecl>,
    pub codes: Items<AgentCode>,
}

/// The points of an agent, and the place of each.
#[derive(Drop)]
struct PointLists {
    points: Items<Point>,
    places: Items<u32>,
}

#[tactic(auto, unfolding(crate::specs::Images::judged))]
fn judged(agents: u32, claims: &[Claim]) -> Result<(), ReadError>
    ensures { (bytes : List ℕ) → Gives (λ _. (tt, bytes)) result (read (judged agents claims.now) bytes) }
{
    'claims: for claim in claims {
        if claim.agent >= agents {
            return Err(ReadError::Bad(claim.left));
        }
    }
    Ok(())
}

#[tactic(auto, unfolding(crate::specs::Images::point))]
fn point<'a>(clocks: u32, points: &mut PointLists, bytes: &'a [u8]) -> Result<&'a [u8], ReadError>
    ensures { Gives (λ rest. ((points.new.points, points.new.places), rest.now)) result (read (point clocks (points.old.points, points.old.places)) bytes.now) }
{
    let (count, rest) = within(1, ADVANCE, bytes)?;
    let (clock, rest) = below(clocks, rest)?;
    let (budget, rest) = within(1, BUDGET, rest)?;
    let (place, rest) = any(rest)?;
    points.points.push(Point {
        count,
        clock,
        budget,
    })?;
    points.places.push(place)?;
    Ok(rest)
}

#[tactic(auto, unfolding(crate::specs::Images::head))]
fn head<'a>(
    alloc: Global,
    clock: u32,
    budget: u32,
    bytes: &'a [u8],
) -> Result<(PointLists, &'a [u8]), ReadError>
    ensures { Gives (λ x. ((x.0.points, x.0.places), x.1.now)) result (read (head clock budget) bytes.now) }
{
    let (count, rest) = within(0, 0, bytes)?;
    let (clock, rest) = within(clock, clock, rest)?;
    let (budget, rest) = within(budget, budget, rest)?;
    let (place, rest) = any(rest)?;
    let mut points = Items::new(alloc);
    points.push(Point {
        count,
        clock,
        budget,
    })?;
    let mut places = Items::new(alloc);
    places.push(place)?;
    Ok((PointLists { points, places }, rest))
}

#[tactic(auto, unfolding(crate::specs::Images::points), using(crate::proofs::Exact::read_then))]
fn points<'a>(
    alloc: Global,
    clocks: u32,
    clock: u32,
    budget: u32,
    bytes: &'a [u8],
) -> Result<(PointLists, &'a [u8]), ReadError>
    ensures { Gives (λ x. ((x.0.points, x.0.places), x.1.now)) result (read (points clocks clock budget) bytes.now) }
{
    let (count, rest) = within(1, POINTS as u32, bytes)?;
    let (mut points, mut rest) = head(alloc, clock, budget, rest)?;
    'points: for _ in 1..count {
        rest = point(clocks, &mut points, rest)?;
    }
    Ok((points, rest))
}

fn add_owned(
    owned: &mut Items<u32>,
    agent: u32,
    number: u32,
    variable: &VarDecl,
) -> Result<(), Memory>
    ensures more { OnOk result (owned.new ≡ owned.old ++ owned_one agent number variable.now.owner) }
    ensures one { OnOk result (length owned.new ≤ length owned.old + 1) }
{
    let Some(owner) = variable.owner else {
        return Ok(());
    };
    if owner != agent {
        return Ok(());
    }
    owned.push(number)?;
    Ok(())
}

/// The numbers of the variables that an agent owns.
fn owned(alloc: Global, agent: u32, variables: &[VarDecl]) -> Result<Items<u32>, Memory>
    requires { length variables.now ≤ VARIABLES }
    ensures numbers { IfOk result (λ owned. owned ≡ owned_from agent 0 variables.now) }
    ensures few { IfOk result (λ owned. length owned ≤ length variables.now) }
{
    let mut owned = Items::new(alloc);
    for (number, variable) in variables.iter().enumerate() {
        add_owned(&mut owned, agent, number as u32, variable)?;
    }
    Ok(owned)
}

#[tactic(auto, unfolding(crate::specs::Images::copy))]
fn copy<'a>(
    owned: u32,
    copies: &mut Items<CopyInit>,
    bytes: &'a [u8],
) -> Result<&'a [u8], ReadError>
    ensures { Gives (λ rest. (copies.new, rest.now)) result (read (copy owned copies.old) bytes.now) }
{
    let (variable, rest) = within(owned, owned, bytes)?;
    let (init, rest) = signed(rest)?;
    copies.push(CopyInit { variable, init })?;
    Ok(rest)
}

#[tactic(auto, unfolding(crate::specs::Images::copies))]
fn copies<'a>(
    alloc: Global,
    owned: &[u32],
    bytes: &'a [u8],
) -> Result<(Items<CopyInit>, &'a [u8]), ReadError>
    requires { length owned.now < 2 ^ 32 }
    ensures { Gives (λ x. (x.0, x.1.now)) result (read (copies owned.now) bytes.now) }
{
    let len = owned.len() as u32;
    let (_, mut rest) = within(len, len, bytes)?;
    let mut copies = Items::new(alloc);
    'owned: for variable in owned {
        rest = copy(*variable, &mut copies, rest)?;
    }
    Ok((copies, rest))
}

#[tactic(auto, unfolding(crate::specs::Images::declaration), using(crate::proofs::Exact::read_then))]
fn declaration<'a>(
    alloc: Global,
    clocks: u32,
    names: &[Text],
    bytes: &'a [u8],
) -> Result<(AgentDecl, Items<u32>, &'a [u8]), ReadError>
    ensures { Gives (λ x. ((x.0, x.1), x.2.now)) result (read (declaration clocks names.now) bytes.now) }
{
    let (name, rest) = name(alloc, names, bytes)?;
    let (clock, rest) = below(clocks, rest)?;
    let (budget, rest) = within(1, BUDGET, rest)?;
    let (processor, rest) = within(0, PROCESSORS - 1, rest)?;
    let (PointLists { points, places }, rest) = points(alloc, clocks, clock, budget, rest)?;
    let declaration = AgentDecl {
        name,
        clock,
        processor,
        budget,
        slots: Items::new(alloc),
        points,
        stmts: Items::new(alloc),
    };
    Ok((declaration, places, rest))
}

#[tactic(auto, unfolding(crate::specs::Images::machine), using(crate::proofs::Exact::read_then))]
fn machine<'a>(
    alloc: Global,
    owned: &[u32],
    places: Items<u32>,
    bytes: &'a [u8],
) -> Result<(AgentCode, &'a [u8]), ReadError>
    requires { length owned.now < 2 ^ 32 }
    ensures { Gives (λ x. (x.0, x.1.now)) result (read (machine owned.now places) bytes.now) }
{
    let (cells, rest) = values(alloc, AGENT_CELLS, bytes)?;
    let (counters, rest) = within(0, COUNTERS, rest)?;
    let (copies, rest) = copies(alloc, owned, rest)?;
    let (stack, rest) = within(0, STACK, rest)?;
    let (frames, rest) = within(0, FRAMES, rest)?;
    let code = AgentCode {
        points: places,
        cells,
        counters,
        copies,
        stack,
        frames,
    };
    Ok((code, rest))
}

#[tactic(auto, unfolding(crate::specs::Images::agent), using(crate::proofs::Exact::read_then))]
fn agent<'a>(
    alloc: Global,
    clocks: u32,
    variables: &[VarDecl],
    lists: &mut AgentLists,
    bytes: &'a [u8],
) -> Result<&'a [u8], ReadError>
    requires variables { length variables.now ≤ VARIABLES }
    requires agents { length lists.old.agents < 2 ^ 32 }
    ensures reads { Gives (λ rest. (lists.new, rest.now)) result (read (agent clocks variables.now lists.old) bytes.now) }
    ensures more { OnOk result (length lists.new.agents ≡ length lists.old.agents + 1) }
{
    let (declaration, places, rest) = declaration(alloc, clocks, lists.names.as_slice(), bytes)?;
    let owned = owned(alloc, lists.agents.len() as u32, variables)?;
    let (code, rest) = machine(alloc, owned.as_slice(), places, rest)?;
    lists
        .names
        .push(Text::from_bytes(alloc, declaration.name.bytes())?)?;
    lists.agents.push(declaration)?;
    lists.codes.push(code)?;
    Ok(rest)
}

/// The agents, by whose count the owners and receivers that were seen are judged.
#[tactic(auto, unfolding(crate::specs::Images::agents), using(crate::proofs::Exact::read_then))]
pub fn agents<'a>(
    alloc: Global,
    clocks: u32,
    variables: &[VarDecl],
    seen: Seen,
    bytes: &'a [u8],
) -> Result<(AgentLists, &'a [u8]), ReadError>
    requires { length variables.now ≤ VARIABLES }
    ensures { Gives (λ x. (x.0, x.1.now)) result (read (agents clocks variables.now seen) bytes.now) }
{
    let (count, mut rest) = within(0, AGENTS as u32, bytes)?;
    judged(count, seen.claims.as_slice())?;
    let mut lists = AgentLists {
        names: seen.names,
        agents: Items::new(alloc),
        codes: Items::new(alloc),
    };
    'agents: for _ in 0..count {
        rest = agent(alloc, clocks, variables, &mut lists, rest)?;
    }
    Ok((lists, rest))
}
