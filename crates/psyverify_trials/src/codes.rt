//! Codes of one agent that owns a variable, and of one function at most.
ghost use Rattle.std.specs.Prelude.{◌≡◌, ◌≤◌, ◌∷◌, [], ℕ, length, IfOk};
ghost use Rattle.psy_code.specs.declared.code.FunctionCode.{FunctionCode};
ghost use Rattle.psy_judge.specs.Judging.{IsSized};
ghost use Rattle.psyverify_trials.specs.Few.{AreFew};

use psy_base::{Items, Memory, Text};
use psy_code::{AgentCode, Code, CopyInit, FunctionCode, Instr};
use psy_judge::{VerifyFault, judge};
use psy_tree::{Unit, VarDecl};
use std::alloc::Global;

/// What an agent has beside its instructions and the one cell: where its points begin, and its room.
#[derive(Clone, Copy)]
pub struct Room<'a> {
    pub points: &'a [u32],
    pub stack: u32,
    pub frames: u32,
}

/// A function without parameters: where it begins, and how many locals and counters its frame has.
#[derive(Clone, Copy)]
pub struct Frame {
    pub entry: u32,
    pub locals: u32,
    pub counters: u32,
}

fn locals(alloc: Global, count: u32) -> Result<Items<i32>, Memory>
    ensures { IfOk result (λ locals. length locals ≤ 1) }
{
    let mut locals = Items::new(alloc);
    if count > 0 {
        locals.push(7)?;
    }
    Ok(locals)
}

fn function(alloc: Global, frame: Frame) -> Result<FunctionCode, Memory>
    ensures { IfOk result (λ function. length function.locals ≤ 1) }
{
    Ok(FunctionCode {
        entry: frame.entry,
        params: 0,
        locals: locals(alloc, frame.locals)?,
        counters: frame.counters,
    })
}

// The function, if there is one.
fn functions(alloc: Global, frame: Option<Frame>) -> Result<Items<FunctionCode>, Memory>
    ensures { IfOk result AreFew }
{
    let mut functions = Items::new(alloc);
    match frame {
        None => Ok(functions),
        Some(frame) => {
            functions.push(function(alloc, frame)?)?;
            Ok(functions)
        }
    }
}

// The agent has one cell, and a copy of its variable.
fn agents(alloc: Global, room: Room) -> Result<Items<AgentCode>, Memory> {
    let mut agents = Items::new(alloc);
    agents.push(AgentCode {
        points: Items::from_slice(alloc, room.points)?,
        cells: Items::from_slice(alloc, &[0])?,
        counters: 0,
        copies: Items::from_slice(
            alloc,
            &[CopyInit {
                variable: 0,
                init: 0,
            }],
        )?,
        stack: room.stack,
        frames: room.frames,
    })?;
    Ok(agents)
}

fn code(alloc: Global, instrs: &[Instr], room: Room, frame: Option<Frame>) -> Result<Code, Memory>
    requires few { length instrs.now ≤ 64 }
    ensures { IfOk result IsSized }
{
    Ok(Code {
        instrs: Items::from_slice(alloc, instrs)?,
        agents: agents(alloc, room)?,
        functions: functions(alloc, frame)?,
    })
}

// A unit with one variable, which the first agent owns and which keeps one value.
fn unit(alloc: Global) -> Result<Unit, Memory> {
    let mut variables = Items::new(alloc);
    variables.push(VarDecl {
        name: Text::from_bytes(alloc, &[b'v'])?,
        owner: Some(0),
        clock: 0,
        init: 0,
        depth: 1,
    })?;
    Ok(Unit {
        quantum: 1000,
        clocks: Items::new(alloc),
        clock_names: Items::new(alloc),
        variables,
        streams: Items::new(alloc),
        functions: Items::new(alloc),
        agents: Items::new(alloc),
    })
}

fn judged(
    alloc: Global,
    instrs: &[Instr],
    room: Room,
    frame: Option<Frame>,
) -> Result<(), VerifyFault>
    requires few { length instrs.now ≤ 64 }
{
    let unit = unit(alloc)?;
    let code = code(alloc, instrs, room, frame)?;
    judge(alloc, &unit, &code)
}

/// The number and the place of the fault of code, if it has one. Of more than 64 instructions nothing is told.
pub fn fault(
    alloc: Global,
    instrs: &[Instr],
    room: Room,
    frame: Option<Frame>,
) -> Option<(u32, u32)> {
    if instrs.len() > 64 {
        return Some((0, 0));
    }
    match judged(alloc, instrs, room, frame) {
        Ok(()) => None,
        Err(VerifyFault::Fault { number, place }) => Some((number, place)),
        Err(VerifyFault::Memory) => Some((0, 1)),
    }
}
