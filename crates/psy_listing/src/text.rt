//! The text of the listing.
ghost use Rattle.std.specs.Prelude.{◌≡◌, ◌++◌, ◌^◌, ◌<◌, [], IfOk, OnOk, flat_map, get_or, length, slice_get};
ghost use Rattle.std.specs.List.{range_with_len};
ghost use Rattle.psy_gen.specs.Emission.{code_of};
ghost use Rattle.psy_meaning.specs.CodeWays.{agent_code_at};
ghost use Rattle.psy_meaning.specs.Units.{IsBare, IsOfText};
ghost use Rattle.psy_listing.specs.Listing.{agent_text, at_text, line_of, listing_of, point_lines, step_line, step_text};

use crate::instr::add_instr;
use crate::way::straight;
use psy_base::{Items, Memory, Text};
use psy_code::{Code, Instr};
use psy_feed::agent_name;
use psy_gen::generate;
use psy_page::{Piece, fill};
use psy_tree::Unit;
use std::alloc::{AllocError, Global};

/// The head line of a point: its agent, its number, its place, and its line in the program's text.
pub const POINT: &[u8] = b"agent $ point $ at $ line $\n";
/// An instruction of a way: its number and its place, before what it is.
pub const STEP: &[u8] = b"  $ at $: ";

/// A program, its code, and the lines of its points in the program's text, agent by agent.
#[derive(Clone, Copy)]
struct Listed<'a> {
    unit: &'a Unit,
    code: &'a Code,
    lines: &'a [Items<Text>],
}

/// Lists the code of a program: for each point of each agent a head line, and a line for each instruction of the straight way from there, with
/// its number in the action, its place and what it is. The head lines have the lines of the program's text, which are told agent by agent and point by
/// point. The only error is want of memory.
pub fn list(alloc: Global, unit: &Unit, lines: &[Items<Text>]) -> Result<Vec<u8>, Memory>
    requires text { IsOfText unit.now }
    ensures { IfOk result (λ text. text.items ≡ listing_of unit.now (code_of unit.now) lines.now) }
{
    let code = generate(alloc, unit)?;
    let listed = Listed {
        unit,
        code: &code,
        lines,
    };
    text_of(alloc, listed)
}

// The points of all agents.
fn text_of(alloc: Global, listed: Listed) -> Result<Vec<u8>, Memory>
    requires bare { IsBare listed.unit.now }
    requires small { length listed.code.now.instrs < 2 ^ 32 }
    ensures { IfOk result (λ text. text.items ≡ listing_of listed.entry.unit.now listed.entry.code.now listed.entry.lines.now) }
{
    let mut out = Vec::new(alloc);
    'agents: for agent in 0..listed.unit.agents.len() as u32 {
        add_agent(alloc, &mut out, listed, agent)?;
    }
    Ok(out)
}

// The points of an agent.
fn add_agent(alloc: Global, out: &mut Vec<u8>, listed: Listed, agent: u32) -> Result<(), Memory>
    requires small { length listed.code.now.instrs < 2 ^ 32 }
    ensures { OnOk result (out.new.items ≡ out.old.items
        ++ agent_text listed.entry.unit.now listed.entry.code.now listed.entry.lines.now agent) }
{
    'points: for (point, place) in points_of(listed.code, agent).iter().enumerate() {
        add_point(alloc, out, listed, agent, point, *place)?;
    }
    Ok(())
}

// A point: its head line, and the straight way from its place.
fn add_point(
    alloc: Global,
    out: &mut Vec<u8>,
    listed: Listed,
    agent: u32,
    point: usize,
    place: u32,
) -> Result<(), Memory>
    requires small { length listed.code.now.instrs < 2 ^ 32 }
    ensures { OnOk result (out.new.items ≡ out.old.items
        ++ point_lines listed.entry.unit.now listed.entry.code.now listed.entry.lines.now agent point place) }
{
    let instrs = listed.code.instrs.as_slice();
    let places = straight(alloc, instrs, place)?;
    let pieces = [
        Piece::Raw(agent_name(listed.unit, agent)),
        Piece::Long(point as u64),
        Piece::Number(place),
        Piece::Raw(line_of(listed.lines, agent, point)),
    ];
    fill(out, POINT, &pieces)?;
    add_steps(out, listed.unit, instrs, places.as_slice())?;
    Ok(())
}

// The line of a point.
fn line_of(lines: &[Items<Text>], agent: u32, point: usize) -> &[u8]
    ensures { result.now ≡ line_of lines.now agent point }
{
    match lines.get(agent as usize) {
        Some(lines) => line_at(lines.as_slice(), point),
        None => b"",
    }
}

fn line_at(lines: &[Text], point: usize) -> &[u8]
    ensures { result.now ≡ get_or lines.now point [] }
{
    match lines.get(point) {
        Some(line) => line.bytes(),
        None => b"",
    }
}

// The instructions at places, numbered from 0.
fn add_steps(
    out: &mut Vec<u8>,
    unit: &Unit,
    instrs: &[Instr],
    places: &[u32],
) -> Result<(), AllocError>
    ensures { OnOk result (out.new.items ≡ out.old.items ++ flat_map (step_text unit.now instrs.now places.now) (range_with_len 0 (length places.now))) }
{
    'steps: for (number, place) in places.iter().enumerate() {
        add_step(out, unit, instrs, number, *place)?;
    }
    Ok(())
}

// `  NUMBER at PLACE: INSTRUCTION`
fn add_step(
    out: &mut Vec<u8>,
    unit: &Unit,
    instrs: &[Instr],
    number: usize,
    place: u32,
) -> Result<(), AllocError>
    ensures { OnOk result (out.new.items ≡ out.old.items ++ step_line unit.now instrs.now number place) }
{
    fill(
        out,
        STEP,
        &[Piece::Long(number as u64), Piece::Number(place)],
    )?;
    add_at(out, unit, instrs, place)?;
    out.extend_from_slice(b"\n")
}

// The instruction at a place, where there is one.
fn add_at(out: &mut Vec<u8>, unit: &Unit, instrs: &[Instr], place: u32) -> Result<(), AllocError>
    ensures { OnOk result (out.new.items ≡ out.old.items ++ at_text unit.now (slice_get instrs.now place)) }
{
    match instrs.get(place as usize) {
        Some(instr) => add_instr(out, unit, *instr),
        None => Ok(()),
    }
}

// The places of an agent's points.
fn points_of(code: &Code, agent: u32) -> &[u32]
    ensures { result.now ≡ (agent_code_at code.now agent).points }
{
    match code.agents.as_slice().get(agent as usize) {
        Some(agent) => agent.points.as_slice(),
        None => &[],
    }
}
