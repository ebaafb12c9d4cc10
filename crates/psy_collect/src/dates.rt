//! What a date adds: what is published, the actions that are over, and those that start.
ghost use Rattle.std.specs.Prelude.{◌≡◌, ◌-◌, ◌%◌, ◌^◌, ◌<◌, ◌≤◌, ◌++◌, ℕ, None, OnOk, get_or, length, option_to_list, slice_set};
ghost use Rattle.std.specs.List.{All, flat_map, range_with_len};
ghost use Rattle.psy_collect.specs.Keeping.{act_in, has_started, last_in, over_in, published_in};
ghost use Rattle.psy_collect.specs.Collected.{ShowsAll};
ghost use Rattle.psy_clock.specs.Dates.{IsClock, count};
ghost use Rattle.psy_dates.specs.Plans.{IsPlan};
ghost use Rattle.psy_history.specs.Lines.{is_date};
ghost use Rattle.psy_meaning.specs.Units.{IsBare};
ghost use Rattle.psy_tree.specs.Parts.{clock_in, variable_at};

use crate::stretch::doing;
use psy_audit::{Act, Ending, Publication};
use psy_base::{Items, Memory};
use psy_clock::Clock;
use psy_dates::{Phase, Plan, Seat, Shared};
use psy_tree::Unit;

/// Adds what is published at the date that was done last.
#[tactic(auto, using(crate::proofs::Rows::added))]
pub fn keep_publications(
    publications: &mut Items<Publication>,
    plan: &Plan,
    shared: &Shared,
    date: u64,
) -> Result<(), Memory>
    requires plan { IsPlan plan.now }
    requires shows { ShowsAll plan.now date shared.now }
    ensures { OnOk result (publications.new ≡ publications.old
        ++ flat_map (published_in plan.now shared.now date) (range_with_len 0 (length plan.now.unit.variables))) }
{
    'variables: for variable in 0..plan.unit.variables.len() as u32 {
        keep_publication(publications, plan, shared, variable, date)?;
    }
    Ok(())
}

// Adds what a variable publishes at the date that was done last.
fn keep_publication(
    publications: &mut Items<Publication>,
    plan: &Plan,
    shared: &Shared,
    variable: u32,
    date: u64,
) -> Result<(), Memory>
    requires plan { IsPlan plan.now }
    requires shows { ShowsAll plan.now date shared.now }
    requires known { variable < length plan.now.unit.variables }
    ensures { OnOk result (publications.new ≡ publications.old ++ published_in plan.now shared.now date variable) }
{
    if let Some(publication) = publication_at(plan, shared, variable, date) {
        publications.push(publication)?;
    }
    Ok(())
}

// What a variable publishes at the date that was done last.
fn publication_at(plan: &Plan, shared: &Shared, variable: u32, date: u64) -> Option<Publication>
    requires plan { IsPlan plan.now }
    requires shows { ShowsAll plan.now date shared.now }
    requires known { variable < length plan.now.unit.variables }
    ensures { option_to_list result ≡ published_in plan.now shared.now date variable }
{
    let clock = clock_of(plan, clock_at(&plan.unit, variable));
    if !has_date(clock, date) {
        return None;
    }
    let slot = slot_at(clock, date, plan.sizes.rings.as_slice()[variable as usize]);
    let value = shared.rings[variable as usize].look(0);
    Some(published(variable, date, slot, value))
}

// The clock of a variable.
fn clock_at(unit: &Unit, variable: u32) -> u32
    ensures { result ≡ (variable_at unit.now variable).clock }
{
    match unit.variables.get(variable as usize) {
        Some(decl) => decl.clock,
        None => 0,
    }
}

// A clock of a plan's program.
fn clock_of(plan: &Plan, clock: u32) -> Clock
    requires { IsBare plan.now.unit }
    ensures value { result ≡ clock_in plan.now.unit clock }
    ensures lawful { IsClock result }
{
    match plan.unit.clocks.get(clock as usize) {
        Some(clock) => *clock,
        None => Clock::base(),
    }
}

// The time is a date of the clock.
fn has_date(clock: Clock, date: u64) -> bool
    requires clock { IsClock clock }
    requires early { date ≤ 2 ^ 40 }
    ensures { result ≡ is_date clock date }
{
    clock.from_date(date, 0) == date
}

// The place of a date in a ring of so many places, by its number.
fn slot_at(clock: Clock, date: u64, size: u32) -> u64
    requires clock { IsClock clock }
    requires early { date ≤ 2 ^ 40 }
    requires some { 1 ≤ size }
    ensures { result ≡ (count clock date - 1) % size }
{
    clock.count_to(date).saturating_sub(1) % u64::from(size)
}

fn published(variable: u32, date: u64, slot: u64, value: i32) -> Publication
    ensures { result ≡ record { variable = variable; date = date; slot = slot; value = value } }
{
    Publication {
        variable,
        date,
        slot,
        value: i64::from(value),
    }
}

/// Adds the actions that are over at the date that was done last: those of agents that started another one there.
#[tactic(auto, using(crate::proofs::Rows::added))]
pub fn keep_overs(
    acts: &mut Items<Act>,
    last: &Items<Option<Act>>,
    seats: &[Seat],
    date: u64,
) -> Result<(), Memory>
    requires { length seats.now < 2 ^ 32 }
    ensures { OnOk result (acts.new ≡ acts.old ++ flat_map (over_in last.now seats.now date) (range_with_len 0 (length seats.now))) }
{
    'agents: for agent in 0..seats.len() as u32 {
        keep_over(acts, last, seats, date, agent)?;
    }
    Ok(())
}

fn keep_over(
    acts: &mut Items<Act>,
    last: &Items<Option<Act>>,
    seats: &[Seat],
    date: u64,
    agent: u32,
) -> Result<(), Memory>
    requires { agent < length seats.now }
    ensures { OnOk result (acts.new ≡ acts.old ++ over_in last.now seats.now date agent) }
{
    if !has_started(&seats[agent as usize], date) {
        return Ok(());
    }
    match doing(last, agent) {
        Some(act) => Ok(acts.push(ended(act, Ending::At(date)))?),
        None => Ok(()),
    }
}

// Whether an agent started an action at the date that was done last, by its seat.
fn has_started(seat: &Seat, date: u64) -> bool
    ensures { result ≡ has_started date seat.now.phase seat.now.start }
{
    match seat.phase {
        Phase::Waiting => false,
        Phase::Acting => seat.start == date,
        Phase::Ended => seat.start == date,
        Phase::Stopped => seat.start == date,
        Phase::Silent => seat.start == date,
    }
}

/// Keeps the actions that started at the date that was done last.
pub fn keep_starts(last: &mut Items<Option<Act>>, seats: &[Seat], date: u64)
    requires few { length seats.now < 2 ^ 32 }
    requires many { length last.old ≡ length seats.now }
    ensures many { length last.new ≡ length last.old }
    ensures each { (agent : ℕ) → agent < length seats.now → get_or last.new agent None ≡ last_in last.old seats.now date agent }
{
    'agents: for agent in 0..seats.len() as u32 {
        keep_start(last, seats, date, agent);
    }
}

fn keep_start(last: &mut Items<Option<Act>>, seats: &[Seat], date: u64, agent: u32)
    requires few { agent < length seats.now }
    requires many { agent < length last.old }
    ensures { last.new ≡ slice_set last.old agent (last_in last.old seats.now date agent) }
{
    let seat = &seats[agent as usize];
    if has_started(seat, date) {
        last.set(agent as usize, Some(act_in(agent, seat)));
    }
}

// The action of a seat, of which nothing was done.
fn act_in(agent: u32, seat: &Seat) -> Act
    ensures { result ≡ act_in agent seat.now }
{
    Act {
        agent,
        number: seat.number,
        point: u64::from(seat.point),
        start: seat.start,
        due: seat.deadline,
        work: 0,
        ending: Ending::Unfinished,
    }
}

/// The action with how it ended.
pub fn ended(act: Act, ending: Ending) -> Act
    ensures { result ≡ record act { ending = ending } }
{
    Act {
        agent: act.agent,
        number: act.number,
        point: act.point,
        start: act.start,
        due: act.due,
        work: act.work,
        ending,
    }
}
