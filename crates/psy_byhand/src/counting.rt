//! A counter whose code was written by hand, instruction by instruction.
ghost use Rattle.std.specs.Prelude.{◌≡◌, ◌*◌, ◌≤◌, IfOk};
ghost use Rattle.psy_base.specs.declared.limits.TheConstants.{BUDGET, QUANTUM};
ghost use Rattle.psy_byhand.specs.Counters.{code_of, nexts, sizes_of, unit_of};
ghost use Rattle.psy_dates.specs.Plans.{IsPlan};
ghost use Rattle.psy_meaning.specs.Units.{Within};

use crate::parts::{add, agent, name, one, onwards, tenth, variable};
use psy_arith::Width;
use psy_base::{Items, Memory, Sizes};
use psy_clock::laws::distances;
use psy_code::{AgentCode, Code, CopyInit, Instr};
use psy_dates::Plan;
use psy_history::laws::one_processor;
use psy_tree::Unit;
use std::alloc::Global;

// The declarations: the agent `A` owns the variable `v`.
fn unit(alloc: Global, quantum: u32, budget: u32) -> Result<Unit, Memory>
    ensures { IfOk result (λ unit. unit ≡ unit_of quantum budget) }
{
    Ok(Unit {
        quantum,
        clocks: one(alloc, tenth())?,
        clock_names: one(alloc, name(alloc, b'c')?)?,
        variables: one(alloc, variable(alloc, 0)?)?,
        streams: Items::new(alloc),
        functions: Items::new(alloc),
        agents: one(alloc, agent(alloc, b'A', budget)?)?,
    })
}

// The code of the agent, both of whose points stand at the first instruction.
fn code(alloc: Global, instrs: &[Instr]) -> Result<Code, Memory>
    ensures { IfOk result (λ code. code ≡ code_of instrs.now) }
{
    let copy = CopyInit {
        variable: 0,
        init: 0,
    };
    let agent = AgentCode {
        points: Items::from_slice(alloc, &[0, 0])?,
        cells: Items::new(alloc),
        counters: 0,
        copies: one(alloc, copy)?,
        stack: 2,
        frames: 0,
    };
    Ok(Code {
        instrs: Items::from_slice(alloc, instrs)?,
        agents: one(alloc, agent)?,
        functions: Items::new(alloc),
    })
}

// What follows each of its points.
fn nexts(alloc: Global) -> Result<Items<Items<Items<u32>>>, Memory>
    ensures { IfOk result (λ lists. lists ≡ nexts) }
{
    one(alloc, onwards(alloc)?)
}

// A ring of so many places. Nothing is sent.
fn sizes(alloc: Global, places: u32) -> Result<Sizes, Memory>
    ensures { IfOk result (λ sizes. sizes ≡ sizes_of places) }
{
    Ok(Sizes {
        rings: one(alloc, places)?,
        queues: Items::new(alloc),
        outboxes: one(alloc, 0)?,
    })
}

/// The plan of a counter: each of its actions takes five instructions to add 1 to `v`. A tick has so many cycles, and an action may take so
/// many.
pub fn counter(alloc: Global, quantum: u32, budget: u32, until: u32) -> Result<Plan, Memory>
    requires quantum { Within 1 QUANTUM quantum }
    requires budget { Within 1 BUDGET budget }
    requires supplied { budget ≤ 10 * quantum }
    ensures { IfOk result IsPlan }
{
    distances();
    one_processor();
    let instrs = [
        Instr::LoadCopy(0),
        Instr::Push(1),
        Instr::Binary(add(), Width::W32),
        Instr::StoreCopy(0),
        Instr::Advance(1),
    ];
    Ok(Plan {
        unit: unit(alloc, quantum, budget)?,
        code: code(alloc, &instrs)?,
        nexts: nexts(alloc)?,
        sizes: sizes(alloc, 1)?,
        until,
    })
}
