//! Two agents whose code was written by hand: what one sends, the other takes.
ghost use Rattle.std.specs.Prelude.{◌≡◌, ◌*◌, ◌≤◌, IfOk};
ghost use Rattle.psy_base.specs.declared.limits.TheConstants.{BUDGET, QUANTUM};
ghost use Rattle.psy_byhand.specs.Relays.{code_of, nexts, receiver_code, sender_code, sizes_of, stream, unit_of};
ghost use Rattle.psy_dates.specs.Plans.{IsPlan};
ghost use Rattle.psy_meaning.specs.Units.{Within};

use crate::parts::{add, agent, name, one, onwards, tenth, two, variable};
use psy_arith::Width;
use psy_base::{Items, Memory, Sizes};
use psy_clock::laws::{dates, distances};
use psy_code::{AgentCode, Code, CopyInit, Instr};
use psy_dates::Plan;
use psy_history::laws::one_processor;
use psy_tree::{StreamDecl, Unit};
use std::alloc::Global;

// The stream `s` to the second agent.
fn stream(alloc: Global) -> Result<StreamDecl, Memory>
    ensures { IfOk result (λ s. s ≡ stream) }
{
    Ok(StreamDecl {
        name: name(alloc, b's')?,
        receiver: 1,
        keep: 1,
        clock: 0,
    })
}

// The declarations: the agent `B` owns the variable `v`, and receives the stream.
fn unit(alloc: Global, quantum: u32, budget: u32) -> Result<Unit, Memory>
    ensures { IfOk result (λ unit. unit ≡ unit_of quantum budget) }
{
    Ok(Unit {
        quantum,
        clocks: one(alloc, tenth())?,
        clock_names: one(alloc, name(alloc, b'c')?)?,
        variables: one(alloc, variable(alloc, 1)?)?,
        streams: one(alloc, stream(alloc)?)?,
        functions: Items::new(alloc),
        agents: two(
            alloc,
            agent(alloc, b'A', budget)?,
            agent(alloc, b'B', budget)?,
        )?,
    })
}

// The code of the first agent, both of whose points stand at the first instruction.
fn sender(alloc: Global) -> Result<AgentCode, Memory>
    ensures { IfOk result (λ its. its ≡ sender_code) }
{
    Ok(AgentCode {
        points: Items::from_slice(alloc, &[0, 0])?,
        cells: Items::new(alloc),
        counters: 0,
        copies: Items::new(alloc),
        stack: 1,
        frames: 0,
    })
}

// That of the second, whose first action finds no message, and so only advances.
fn receiver(alloc: Global) -> Result<AgentCode, Memory>
    ensures { IfOk result (λ its. its ≡ receiver_code) }
{
    let copy = CopyInit {
        variable: 0,
        init: 0,
    };
    Ok(AgentCode {
        points: Items::from_slice(alloc, &[7, 3])?,
        cells: Items::new(alloc),
        counters: 0,
        copies: one(alloc, copy)?,
        stack: 2,
        frames: 0,
    })
}

// The code of both.
fn code(alloc: Global, instrs: &[Instr]) -> Result<Code, Memory>
    ensures { IfOk result (λ code. code ≡ code_of instrs.now) }
{
    Ok(Code {
        instrs: Items::from_slice(alloc, instrs)?,
        agents: two(alloc, sender(alloc)?, receiver(alloc)?)?,
        functions: Items::new(alloc),
    })
}

// What follows each of their points.
fn nexts(alloc: Global) -> Result<Items<Items<Items<u32>>>, Memory>
    ensures { IfOk result (λ lists. lists ≡ nexts) }
{
    two(alloc, onwards(alloc)?, onwards(alloc)?)
}

// A ring, a queue and the first agent's outbox of so many places each.
fn sizes(alloc: Global, ring: u32, queue: u32, outbox: u32) -> Result<Sizes, Memory>
    ensures { IfOk result (λ sizes. sizes ≡ sizes_of ring queue outbox) }
{
    Ok(Sizes {
        rings: one(alloc, ring)?,
        queues: one(alloc, queue)?,
        outboxes: two(alloc, outbox, 0)?,
    })
}

/// The plan of a relay: `A` sends what `v` published last, and `B` takes it, adds 1, and makes it the value of `v`. A tick has so many cycles,
/// and an action of each may take so many.
pub fn relay(alloc: Global, quantum: u32, budget: u32, until: u32) -> Result<Plan, Memory>
    requires quantum { Within 1 QUANTUM quantum }
    requires budget { Within 1 BUDGET budget }
    requires supplied { 2 * budget ≤ 10 * quantum }
    ensures { IfOk result IsPlan }
{
    dates();
    distances();
    one_processor();
    let instrs = [
        Instr::Past {
            variable: 0,
            back: 0,
        },
        Instr::Send {
            stream: 0,
            after: 0,
            clock: 0,
        },
        Instr::Advance(1),
        Instr::Take(0),
        Instr::Push(1),
        Instr::Binary(add(), Width::W32),
        Instr::StoreCopy(0),
        Instr::Advance(1),
    ];
    Ok(Plan {
        unit: unit(alloc, quantum, budget)?,
        code: code(alloc, &instrs)?,
        nexts: nexts(alloc)?,
        sizes: sizes(alloc, 1, 3, 1)?,
        until,
    })
}
