//! What a date does to the values committed.

ghost use Rattle.std.specs.Prelude.{◌≡◌, ◌≢◌, ℕ, ◌<◌, Some, length, get_or, if◌then◌else◌, pos, slice_get};
ghost use Rattle.std.specs.List.{All};
ghost use Rattle.psy_code.specs.declared.code.CopyInit.{CopyInit as Copied};
ghost use Rattle.psy_dates.specs.Movers.{NamesAll, ends_in};
ghost use Rattle.psy_dates.specs.Moves.{commits_at, ends_at, ends_by, owner_of};
ghost use Rattle.psy_dates.specs.Plans.{IsPlan};

use crate::plan::Plan;
use crate::seat::{Phase, Seat};
use psy_code::CopyInit;

/// An agent that is at this ends its action at a date, where it is that of its end.
fn ends(phase: Phase, at: bool) -> bool
    ensures { result ≡ ends_by phase at }
{
    match phase {
        Phase::Ended => at,
        _ => false,
    }
}

/// An agent ends its action at this date.
pub fn ends_there(date: u64, seats: &[Seat], agent: usize) -> bool
    ensures { result ≡ ends_at date (slice_get seats.now agent) }
{
    match seats.get(agent) {
        Some(seat) => ends(seat.phase, seat.end == date),
        None => false,
    }
}

/// The value of a variable.
fn value_at(values: &[i32], variable: usize) -> i32
    requires { variable < length values.now }
    ensures { result ≡ get_or values.now variable (pos 0) }
{
    values[variable]
}

/// Commits the working copies of these variables.
fn commit_listed(own: &[CopyInit], ended: &[i32], committed: &mut [i32])
    requires known { (place : ℕ) (copy : Copied) → slice_get own.now place ≡ Some copy → copy.variable < length committed.old }
    requires kept { length ended.now ≡ length committed.old }
    ensures own { (place : ℕ) (copy : Copied) → slice_get own.now place ≡ Some copy
        → get_or committed.new copy.variable (pos 0) ≡ get_or ended.now copy.variable (pos 0) }
    ensures others { (variable : ℕ) → ((place : ℕ) (copy : Copied) → slice_get own.now place ≡ Some copy → copy.variable ≢ variable)
        → get_or committed.new variable (pos 0) ≡ get_or committed.old variable (pos 0) }
{
    'copies: for place in 0..own.len() {
        let variable = own[place].variable as usize;
        committed[variable] = value_at(ended, variable);
    }
}

/// Commits the working copies of the variables that an agent owns.
fn commit_own(plan: &Plan, agent: usize, ended: &[i32], committed: &mut [i32])
    requires plan { IsPlan plan.now }
    requires known { agent < length plan.now.unit.agents }
    requires kept { length ended.now ≡ length plan.now.unit.variables }
    requires valued { length committed.old ≡ length plan.now.unit.variables }
    ensures own { (variable : ℕ) → owner_of plan.now.unit.variables variable ≡ Some agent
        → get_or committed.new variable (pos 0) ≡ get_or ended.now variable (pos 0) }
    ensures others { (variable : ℕ) → owner_of plan.now.unit.variables variable ≢ Some agent
        → get_or committed.new variable (pos 0) ≡ get_or committed.old variable (pos 0) }
{
    let of = &plan.code.agents.as_slice()[agent];
    commit_listed(of.copies.as_slice(), ended, committed);
}

/// The same where its action ends; else nothing is committed.
fn commit_where(plan: &Plan, ends: bool, agent: usize, ended: &[i32], committed: &mut [i32])
    requires plan { IsPlan plan.now }
    requires known { agent < length plan.now.unit.agents }
    requires kept { length ended.now ≡ length plan.now.unit.variables }
    requires valued { length committed.old ≡ length plan.now.unit.variables }
    ensures own { (variable : ℕ) → owner_of plan.now.unit.variables variable ≡ Some agent
        → get_or committed.new variable (pos 0) ≡ (if ends then get_or ended.now variable (pos 0) else get_or committed.old variable (pos 0)) }
    ensures others { (variable : ℕ) → owner_of plan.now.unit.variables variable ≢ Some agent
        → get_or committed.new variable (pos 0) ≡ get_or committed.old variable (pos 0) }
{
    if ends {
        commit_own(plan, agent, ended, committed);
    }
}

/// Commits the working copies of the variables whose owners end their actions at a date, by the agents that move there.
pub fn commit_all(
    plan: &Plan,
    date: u64,
    seats: &[Seat],
    movers: &[u32],
    ended: &[i32],
    committed: &mut [i32],
)
    requires plan { IsPlan plan.now }
    requires kept { length ended.now ≡ length plan.now.unit.variables }
    requires valued { length committed.old ≡ length plan.now.unit.variables }
    requires known { All (λ agent. agent < length plan.now.unit.agents) movers.now }
    requires movers { NamesAll (ends_in date seats.now) (length plan.now.unit.agents) 0 movers.now }
    ensures { (variable : ℕ) → variable < length plan.now.unit.variables
        → get_or committed.new variable (pos 0) ≡ (if commits_at date seats.now (owner_of plan.now.unit.variables variable)
        then get_or ended.now variable (pos 0) else get_or committed.old variable (pos 0)) }
{
    'movers: for place in 0..movers.len() {
        let agent = movers[place] as usize;
        let ends = ends_there(date, seats, agent);
        commit_where(plan, ends, agent, ended, committed);
    }
}
