//! The machine of an agent.
ghost use Rattle.std.specs.Prelude.{◌≡◌, ◌≢◌, ◌<◌, List, length, slice_get, slice_index_or, Some, IsSome, IfOk, ℤ};
ghost use Rattle.psy_code.specs.Execution.{Stuck, copy_of, call_of, call_by, does};
ghost use Rattle.psy_code.specs.Views.{PermitsAll};
ghost use Rattle.psy_machine.specs.Stepping.{IsOf, IsNew, HasPlace, StandsAt, Answers, look_of, next_for, stepped, window_after};
ghost use Rattle.psy_machine.specs.Acting.{CanDo, Did};

mod control;
mod operators;
mod values;

use crate::copies::Copies;
use crate::frames::Frames;
use crate::machine::values::low_32;
use crate::operands::Operands;
use psy_arith::Trap;
use psy_base::Memory;
use psy_code::{AgentCode, Code, Instr, Look};
use std::alloc::Global;
use std::marker::Model;

/// What came of an instruction.
#[derive(Clone, Copy, Debug, PartialEq, Eq)]
pub enum Step {
    Went,
    /// The action ended; the agent goes on at this point.
    Ended(u32),
    Trapped(Trap),
}

/// The machine of one agent.
#[derive(Debug, Drop)]
pub struct Machine {
    agent: u32,
    /// Where the next instruction stands.
    place: usize,
    operands: Operands,
    frames: Frames,
    copies: Copies,
}

impl Model for Machine {
    ghost use Rattle.psy_machine.specs.Stepping.{AgentMachine};

    ghost Value = { AgentMachine };

    ghost view = { λ m. record {
      agent = m.agent;
      machine = record {
        place = m.place;
        operands = m.operands.values;
        home = m.frames.home;
        calls = m.frames.calls;
        copies = m.copies;
      };
      stack = m.operands.room;
      frames = m.frames.room;
    } };
}

impl Machine {
    /// The machine of an agent that hasn't started. All the room that it ever needs is reserved here; the
    /// only error is want of memory.
    pub fn new(alloc: Global, code: &Code, agent: u32) -> Result<Machine, Memory>
        requires { agent < length code.now.agents }
        ensures new { IfOk result (IsNew code.now agent) }
        ensures of { IfOk result (IsOf code.now) }
    {
        let of = &code.agents.as_slice()[agent as usize];
        Ok(Machine {
            agent,
            place: start_of(of),
            operands: Operands::new(alloc, of.stack)?,
            frames: Frames::new(alloc, of.cells.as_slice(), of.counters, of.frames)?,
            copies: Copies::new(alloc, of.copies.as_slice())?,
        })
    }

    /// The machine of an agent that begins an action at a point with these values in its cells and its working copies, in their
    /// order. All the room that it ever needs is reserved here; the only error is want of memory.
    pub fn resume(
        alloc: Global,
        code: &Code,
        agent: u32,
        point: u32,
        cells: &[i64],
        copies: &[i32],
    ) -> Result<Machine, Memory>
        requires { HasPlace code.now agent point cells.now copies.now }
        ensures stands { IfOk result (StandsAt code.now agent point cells.now copies.now) }
        ensures of { IfOk result (IsOf code.now) }
    {
        let of = &code.agents.as_slice()[agent as usize];
        Ok(Machine {
            agent,
            place: of.points.as_slice()[point as usize] as usize,
            operands: Operands::new(alloc, of.stack)?,
            frames: Frames::with_cells(alloc, cells, of.counters, of.frames)?,
            copies: Copies::with_values(alloc, of.copies.as_slice(), copies)?,
        })
    }

    /// Executes one instruction. A trap leaves the machine as it was.
    #[inline(always)]
    pub fn step<L: Look>(&mut self, code: &Code, look: &mut L) -> Step
        requires of { IsOf code.now self.old }
        requires able { next_for code.now (L.window look.old).view self.old ≢ Stuck }
        requires permitted { PermitsAll (L.window look.old) (call_of code.now self.old.machine) }
        ensures answer { Answers (next_for code.now (L.window look.old).view self.old) result }
        ensures machine { self.new ≡ stepped code.now (L.window look.old).view self.old }
        ensures window { L.window look.new
            ≡ window_after (L.window look.old) (call_of code.now self.old.machine) }
        ensures kept { L.Keeps look.old look.new }
    {
        let agent = &code.agents.as_slice()[self.agent as usize];
        // by reference: each kind of instruction reads no more of it than it needs
        let instr = &code.instrs.as_slice()[self.place];
        self.act(code, agent, instr, look)
    }

    /// The variable and the `back` that the next instruction looks at; None where it makes no look. It takes no memory.
    pub fn look_due(&self, code: &Code) -> Option<(u32, u32)>
        ensures { result ≡ look_of (call_of code.now self.now.machine) }
    {
        match code.instrs.as_slice().get(self.place) {
            Some(instr) => look_by(instr),
            None => None,
        }
    }

    /// The value in a cell of the agent's own frame. It takes no memory.
    pub fn cell(&self, place: u32) -> i64
        requires { place < length self.now.machine.home.cells }
        ensures { slice_get self.now.machine.home.cells place ≡ Some result }
    {
        self.frames.home_cell(place as usize)
    }

    /// The values in the cells of the agent's own frame. It takes no memory.
    pub fn cells(&self) -> &[i64]
        ensures { result.now ≡ self.now.machine.home.cells }
    {
        self.frames.home_cells()
    }

    /// The working copy of a variable that the agent owns.
    pub fn copy(&self, variable: u32) -> i32
        requires { IsSome (copy_of variable self.now.machine.copies) }
        ensures { copy_of variable self.now.machine.copies ≡ Some result }
    {
        self.copies.get(variable)
    }

    /// Executes an instruction of the agent.
    #[inline(always)]
    fn act<L: Look>(&mut self, code: &Code, agent: &AgentCode, instr: &Instr, look: &mut L) -> Step
        requires able { CanDo self.old
            (does code.now agent.now (L.window look.old).view instr.now self.old.machine) }
        requires permitted { PermitsAll (L.window look.old) (call_by instr.now self.old.machine.operands) }
        ensures did { Did (does code.now agent.now (L.window look.old).view instr.now self.old.machine)
            self.old self.new result }
        ensures window { L.window look.new
            ≡ window_after (L.window look.old) (call_by instr.now self.old.machine.operands) }
        ensures kept { L.Keeps look.old look.new }
    {
        match *instr {
            Instr::Push(number) => self.push(i64::from(number)),
            Instr::Load(cell) => self.load(cell),
            Instr::Store(cell) => self.store(cell),
            Instr::LoadCell { base, cells } => self.load_cell(base, cells),
            Instr::StoreCell { base, cells } => self.store_cell(base, cells),
            Instr::LoadCopy(variable) => self.load_copy(variable),
            Instr::StoreCopy(variable) => self.store_copy(variable),
            Instr::Past { variable, back } => {
                let value = look.past(variable, back);
                self.push(i64::from(value))
            }
            Instr::Ready(stream) => {
                let count = look.ready(stream);
                self.push(i64::from(count.cast_signed()))
            }
            Instr::Take(stream) => match look.take(stream) {
                Some(value) => self.push(i64::from(value)),
                None => Step::Trapped(Trap::Take),
            },
            Instr::Send {
                stream,
                after,
                clock,
            } => {
                let value = low_32(self.operands.pop());
                look.send(stream, value, after, clock);
                self.go_on()
            }
            Instr::Jump(to) => self.jump(to),
            Instr::JumpZero(to) => self.jump_zero(to),
            Instr::AndTest(to) => self.and_test(to),
            Instr::OrTest(to) => self.or_test(to),
            Instr::Truth => self.truth(),
            Instr::Zero(counter) => self.zero(counter),
            Instr::Guard { counter, bound } => self.guard(counter, bound),
            Instr::Call(number) => self.call(&code.functions.as_slice()[number as usize]),
            Instr::Return => self.leave(),
            Instr::Advance(point) => self.advance(agent, point),
            Instr::Binary(operator, width) => self.binary(operator.op(), width),
            Instr::Unary(operator, width) => self.unary(operator, width),
            Instr::Cast(width) => self.cast(width),
        }
    }
}

/// The variable and the `back` that an instruction looks at, where it does.
fn look_by(instr: &Instr) -> Option<(u32, u32)>
    ensures { (operands : List ℤ) → result ≡ look_of (call_by instr.now operands) }
{
    match *instr {
        Instr::Past { variable, back } => Some((variable, back)),
        _ => None,
    }
}

/// Where an agent's first action begins.
fn start_of(agent: &AgentCode) -> usize
    ensures { result ≡ slice_index_or agent.now.points 0 0 }
{
    match agent.points.as_slice().first() {
        Some(place) => *place as usize,
        None => 0,
    }
}
