//! The delays of the sends of a program's text.

ghost use Rattle.std.specs.Prelude.{◌≡◌, ◌+◌, ◌-◌, ◌*◌, IfOk};
ghost use Rattle.psy_meaning.specs.ListedWays.{AreDelays};
ghost use Rattle.psy_meaning.specs.Sendings.{longest_delay, period_of, sendings_in, sendings_of};
ghost use Rattle.psy_meaning.specs.Units.{IsOfText};
ghost use Rattle.psy_flow.specs.Listed.{delay_among};

use psy_base::{Items, Memory};
use psy_lists::push;
use psy_tree::{Stmt, Unit};
use std::alloc::Global;

fn period(unit: &Unit, clock: u32) -> u32
    ensures { result ≡ period_of unit.now clock }
{
    match unit.clocks.as_slice().get(clock as usize) {
        Some(clock) => clock.period,
        None => 1,
    }
}

/// The most ticks from the end of an action to the date from which a message is visible that it sends `after` dates of a clock.
pub fn delay(unit: &Unit, after: u32, clock: u32) -> u64
    ensures { result ≡ (after + 1) * period_of unit.now clock - 1 }
{
    ((u64::from(after) + 1) * u64::from(period(unit, clock))).saturating_sub(1)
}

/// The greatest delay of the sends to a stream in a statement.
#[cycle(stmt)]
fn delay_in_stmt(unit: &Unit, stream: u32, stmt: &Stmt) -> u64
    ensures { result ≡ delay_among unit.now stream (sendings_of stmt.now) }
{
    match stmt {
        Stmt::If(_, branch, other) => {
            let branch = delay_in(unit, stream, branch.as_slice());
            match other {
                None => branch,
                Some(other) => {
                    let other = delay_in(unit, stream, other.as_slice());
                    branch.max(other)
                }
            }
        }
        Stmt::Bounded(_, _, body) => delay_in(unit, stream, body.as_slice()),
        Stmt::Timed(_, body) => delay_in(unit, stream, body.as_slice()),
        Stmt::Send {
            stream: to,
            after,
            clock,
            ..
        } => {
            if *to == stream {
                delay(unit, *after, *clock)
            } else {
                0
            }
        }
        _ => 0,
    }
}

/// The greatest delay of the sends to a stream in statements.
#[cycle(stmt)]
fn delay_in(unit: &Unit, stream: u32, stmts: &[Stmt]) -> u64
    ensures { result ≡ delay_among unit.now stream (sendings_in stmts.now) }
{
    let mut greatest = 0u64;
    for stmt in stmts {
        greatest = greatest.max(delay_in_stmt(unit, stream, stmt));
    }
    greatest
}

// The greatest delay of all sends to a stream.
fn longest(unit: &Unit, stream: u32) -> u64
    ensures { result ≡ longest_delay unit.now stream }
{
    let mut greatest = 0u64;
    'agents: for agent in unit.agents.as_slice() {
        greatest = greatest.max(delay_in(unit, stream, agent.stmts.as_slice()));
    }
    greatest
}

/// By stream, the greatest delay of the sends to it. The only error is want of memory.
pub fn delays(alloc: Global, unit: &Unit) -> Result<Items<u64>, Memory>
    requires text { IsOfText unit.now }
    ensures { IfOk result (AreDelays unit.now) }
{
    let mut delays = Items::new(alloc);
    'streams: for stream in 0..unit.streams.len() as u32 {
        push(&mut delays, longest(unit, stream))?;
    }
    Ok(delays)
}
