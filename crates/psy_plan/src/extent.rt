//! Up to which length the demand of a program's agents is looked at.
ghost use Rattle.std.specs.Prelude.{◌≡◌, ◌==◌, ℕ, ◌^◌, ◌<◌, ◌≤◌, if◌then◌else◌, IfOk, MatchOption, length};
ghost use Rattle.std.specs.List.{All};
ghost use Rattle.psy_base.specs.declared.limits.TheConstants.{AGENTS};
ghost use Rattle.psy_rate.specs.Horizons.{Covers, IsHorizon, IsHorizonOf};
ghost use Rattle.psy_rate.specs.Lines.{lines_by, lines_on as all_on, no_line};
ghost use Rattle.psy_plan.specs.Extents.{IsExtent, IsNearer, length_of};

use psy_base::{Items, Memory, limits};
use psy_lists::push;
use psy_rate::laws::horizons;
use psy_rate::{Rate, horizon};
use std::alloc::Global;

/// Up to which length the demand is looked at.
#[derive(Clone, Copy)]
pub enum Extent {
    /// Up to the horizon of all processors' lines: what holds up to it holds over every length.
    Horizon(u32),
    /// Up to the last date, where there is no horizon or it lies behind that date.
    LastDate(u32),
}

impl Extent {
    /// That length.
    pub fn length(self) -> u32
        ensures { result ≡ length_of self }
    {
        match self {
            Extent::Horizon(length) => length,
            Extent::LastDate(date) => date,
        }
    }
}

// The line of an agent on a processor: its own where it is of that one, else that of nothing.
fn line_on(home: u32, processor: u32, line: Rate) -> Rate
    ensures { result ≡ (if home == processor then line else no_line) }
{
    if home == processor {
        line
    } else {
        Rate {
            rate: 0,
            intercept: 0,
        }
    }
}

// By agent, its line where its processor is this one, and that of nothing where it is another.
fn lines_on(
    alloc: Global,
    homes: &Items<u32>,
    lines: &Items<Rate>,
    processor: u32,
) -> Result<Items<Rate>, Memory>
    requires count { length homes.now ≡ length lines.now }
    ensures { IfOk result (λ list. list ≡ all_on homes.now processor lines.now) }
{
    let known = homes.as_slice();
    let all = lines.as_slice();
    let mut list = Items::new(alloc);
    'agents: for agent in 0..all.len() {
        let line = line_on(known[agent], processor, all[agent]);
        push(&mut list, line)?;
    }
    Ok(list)
}

// The horizon of a processor.
fn horizon_on(
    alloc: Global,
    homes: &Items<u32>,
    lines: &Items<Rate>,
    quantum: u32,
    processor: u32,
) -> Result<Option<u64>, Memory>
    requires count { length homes.now ≡ length lines.now }
    requires few { length lines.now ≤ AGENTS }
    requires rates { All (λ line. line.rate ≤ 2 ^ 40) lines.now }
    requires intercepts { All (λ line. line.intercept < 2 ^ 50) lines.now }
    ensures { let own = all_on homes.now processor lines.now in
        IfOk result (λ found. MatchOption found ((length : ℕ) → Covers quantum own length → ⊥) (IsHorizonOf quantum own)) }
{
    let own = lines_on(alloc, homes, lines, processor)?;
    Ok(horizon(own.as_slice(), quantum))
}

// The horizon of all processors, the greatest of theirs: None exactly where one of them has none.
fn horizon_of(
    alloc: Global,
    homes: &Items<u32>,
    lines: &Items<Rate>,
    quantum: u32,
) -> Result<Option<u64>, Memory>
    requires count { length homes.now ≡ length lines.now }
    requires few { length lines.now ≤ AGENTS }
    requires rates { All (λ line. line.rate ≤ 2 ^ 40) lines.now }
    requires intercepts { All (λ line. line.intercept < 2 ^ 50) lines.now }
    ensures { let groups = lines_by homes.now lines.now in
        IfOk result (λ found. MatchOption found ((length : ℕ) → IsHorizon quantum groups length → ⊥) (IsHorizon quantum groups)) }
{
    let mut greatest = 0;
    'processors: for processor in 0..limits::PROCESSORS {
        match horizon_on(alloc, homes, lines, quantum, processor)? {
            None => return Ok(None),
            Some(length) => greatest = length.max(greatest),
        }
    }
    Ok(Some(greatest))
}

/// Up to which length the demand is looked at, by the processors and the lines of all agents, in a program of so many cycles a tick.
pub fn extent_of(
    alloc: Global,
    homes: &Items<u32>,
    lines: &Items<Rate>,
    quantum: u32,
    until: u32,
) -> Result<Extent, Memory>
    requires count { length homes.now ≡ length lines.now }
    requires few { length lines.now ≤ AGENTS }
    requires rates { All (λ line. line.rate ≤ 2 ^ 40) lines.now }
    requires intercepts { All (λ line. line.intercept < 2 ^ 50) lines.now }
    ensures { IfOk result (IsExtent quantum homes.now lines.now until) }
{
    horizons();
    match horizon_of(alloc, homes, lines, quantum)? {
        None => Ok(Extent::LastDate(until)),
        Some(length) => Ok(within(length, until)),
    }
}

// The horizon where it isn't behind the last date, else that date.
fn within(length: u64, until: u32) -> Extent
    ensures { IsNearer length until result }
{
    if length <= u64::from(until) {
        Extent::Horizon(length as u32)
    } else {
        Extent::LastDate(until)
    }
}
