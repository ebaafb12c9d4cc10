//! What a date does: actions that end commit, messages go and enter, variables publish, actions start.
ghost use Rattle.std.specs.Prelude.{◌≡◌, ℕ, ◌+◌, ◌*◌, ◌≤◌, List, [], Some, length, slice_get};
ghost use Rattle.psy_budget.specs.declared.charge.Stall.{Stall};
ghost use Rattle.psy_history.specs.Compiled.{AreInputs};
ghost use Rattle.psy_history.specs.Scheduled.{turns_by};
ghost use Rattle.psy_history.specs.Actions.{Opening};
ghost use Rattle.psy_dates.specs.Movers.{NamesAll, starts_in};
ghost use Rattle.psy_dates.specs.Plans.{IsPlan, IsSoundFor, opened_of};
ghost use Rattle.psy_dates.specs.Outboxes.{Outboxed};
ghost use Rattle.psy_dates.specs.Standing.{Begins, GoesOn, NoneActs, SharedStands, dates_done};
ghost use Rattle.psy_tree.specs.declared.unit.StreamDecl.{StreamDecl};

use crate::clears::{clear_outboxes, clear_takes};
use crate::commits::commit_all;
use crate::enters::enter_all;
use crate::moves::move_all;
use crate::plan::Plan;
use crate::rings::publish_all;
use crate::settles::settle_all;
use crate::shared::Shared;
use psy_history::laws::{fitting, given, openings, queue_sizes, queues, regular, rings};

/// Does a date. The actions that end there commit. Of each stream whose receiver ends there what it took goes, and what has expired where
/// the receiver starts there or is silent. The messages of the actions that end there enter. Each variable whose clock has that date
/// publishes the value committed last or that of its list. Agents that were stopped and are due fall silent, and each agent whose next
/// action starts there starts it. It takes no memory.
pub fn at_date(shared: &mut Shared, plan: &Plan, date: u64)
    requires plan { IsPlan plan.now }
    requires inputs { AreInputs plan.now.unit shared.old.inputs.lists }
    requires next { date ≡ dates_done shared.old.date }
    requires within { date ≤ plan.now.until }
    // no action that is due is pending
    requires due { NoneActs date shared.old.seats.items }
    // it stands for the history of the dates before, with all their cycles done, for some sound opening and some script
    requires stands { (opening : Opening) × (stalls : ℕ → List Stall) × (order : ℕ → List ℕ)
        × IsSoundFor plan.now opening shared.old.inputs.lists stalls × (opening.dates ≤ date)
        × SharedStands (opened_of plan.now opening shared.old.inputs.lists stalls) plan.now.sizes
        (turns_by (opened_of plan.now opening shared.old.inputs.lists stalls) order (date * plan.now.unit.quantum)) date shared.old }
    // for each opening and script for which it does, it stands for the history up to this date
    ensures stands { (opening : Opening) (stalls : ℕ → List Stall) (order : ℕ → List ℕ)
        → IsSoundFor plan.now opening shared.old.inputs.lists stalls → opening.dates ≤ date
        → SharedStands (opened_of plan.now opening shared.old.inputs.lists stalls) plan.now.sizes
        (turns_by (opened_of plan.now opening shared.old.inputs.lists stalls) order (date * plan.now.unit.quantum)) date shared.old
        → SharedStands (opened_of plan.now opening shared.old.inputs.lists stalls) plan.now.sizes
        (turns_by (opened_of plan.now opening shared.old.inputs.lists stalls) order (date * plan.now.unit.quantum)) (date + 1) shared.new }
    // an action that starts there has sent and taken nothing, and what one that goes on has sent and taken stays
    ensures begun { (agent : ℕ) → Begins date shared.new.seats.items agent
        → ((outbox : Outboxed) → slice_get shared.new.outboxes.items agent ≡ Some outbox → outbox.sends ≡ [])
        × ((stream : ℕ) (decl : StreamDecl) → slice_get plan.now.unit.streams stream ≡ Some decl → decl.receiver ≡ agent
        → slice_get shared.new.taken.items stream ≡ Some 0) }
    ensures going { (agent : ℕ) → GoesOn date shared.new.seats.items agent
        → (slice_get shared.new.outboxes.items agent ≡ slice_get shared.old.outboxes.items agent)
        × ((stream : ℕ) (decl : StreamDecl) → slice_get plan.now.unit.streams stream ≡ Some decl → decl.receiver ≡ agent
        → slice_get shared.new.taken.items stream ≡ slice_get shared.old.taken.items stream) }
    // an action that starts there is that of an agent that moved
    ensures moved { NamesAll (starts_in (date + 1) shared.new.seats.items) (length shared.new.seats.items) 0 shared.new.movers.moved.agents }
    ensures inputs { shared.new.inputs ≡ shared.old.inputs }
{
    fitting();
    openings();
    given();
    regular();
    rings();
    queues();
    queue_sizes();
    // the proof needs its range
    let _until = plan.until;
    shared.movers.find(plan, date, &shared.seats);
    let movers = shared.movers.moved.agents();
    commit_all(
        plan,
        date,
        &shared.seats,
        movers,
        &shared.ended,
        &mut shared.committed,
    );
    settle_all(
        plan,
        date,
        &shared.seats,
        movers,
        shared.movers.stopped,
        &shared.taken,
        &mut shared.queues,
    );
    enter_all(
        plan,
        date,
        &shared.seats,
        movers,
        &shared.outboxes,
        &mut shared.queues,
    );
    publish_all(
        plan,
        &shared.inputs,
        &shared.committed,
        &shared.calendar,
        date,
        &mut shared.rings,
    );
    shared.calendar.pass(plan.unit.clocks.as_slice(), date);
    clear_outboxes(date, &shared.seats, movers, &mut shared.outboxes);
    clear_takes(plan, date, &shared.seats, movers, &mut shared.taken);
    move_all(plan, &shared.calendar, date, movers, &mut shared.seats);
    shared.date = Some(date);
}
