//! Many cycles in a row that go to one action.
ghost use Rattle.std.specs.Prelude.{◌≡◌, ◌≢◌, ℕ, ◌+◌, ◌*◌, ◌^◌, ◌<◌, ◌≤◌, List, Option, Some, length, slice_get, true, ℤ};
ghost use Rattle.std.specs.List.{All};
ghost use Rattle.psy_base.specs.declared.limits.TheConstants.{RING};
ghost use Rattle.psy_budget.specs.declared.charge.Stall.{Stall};
ghost use Rattle.psy_dates.specs.Plans.{IsPlan, opened_of};
ghost use Rattle.psy_history.specs.Actions.{Action, Opening};
ghost use Rattle.psy_history.specs.Schedule.{Turn, work};
ghost use Rattle.psy_machine.specs.Stepping.{IsOf};
ghost use Rattle.psy_machine.specs.declared.machine.Step.TheVariants as step;
ghost use Rattle.psy_tree.specs.declared.unit.StreamDecl.{StreamDecl};
ghost use Rattle.psy_tree.specs.declared.unit.VarDecl.{VarDecl};
ghost use Rattle.psy_kernel.specs.declared.engine.advance.Gone.TheVariants as gone;
ghost use Rattle.psy_kernel.specs.Seeing.{is_mine};
ghost use Rattle.psy_kernel.specs.Standing.{charge_after};
ghost use Rattle.psy_kernel.specs.Stretches.{AllPay, Lasts, MayGoOn, MayLast, Passes, Steps};

use super::Runner;
use super::advance::{Gone, going};
use super::cycle::{end_of, figured, keep_copies, note, stop};
use crate::eyes::{Eyes, Scene};
use psy_budget::laws;
use psy_dates::{Outbox, Phase, Plan, Seat};
use psy_machine::{Machine, Step};
use psy_queue::Queue;
use psy_ring::Ring;

/// What steps of a machine came to: how many they were, and the answer of the last one.
#[derive(Clone, Copy, Debug)]
struct Executed {
    count: u64,
    step: Step,
}

/// What a stretch of cycles came to: how many they were, and what became of the action with the last one.
#[derive(Clone, Copy, Debug)]
struct Passed {
    cycles: u64,
    gone: Gone,
}

/// Executes the next instructions of an action, up to so many, each of which a cycle pays. Each look is noted as it is made.
#[inline(never)]
fn burst(
    plan: &Plan,
    start: u64,
    date: u64,
    most: u64,
    machine: &mut Machine,
    eyes: &mut Eyes,
    reaches: &mut Vec<Option<u32>>,
) -> Executed
    requires plan { IsPlan plan.now }
    requires of { IsOf plan.now.code machine.old }
    requires early { (start ≤ date) × (date ≤ 2 ^ 40) }
    requires reaching { length reaches.old.items ≡ length plan.now.unit.variables }
    requires given { (opening : Opening) × (inputs : List (List ℤ)) × (stalls : ℕ → List Stall) × (r : Action) × (had : ℕ)
        × MayGoOn (opened_of plan.now opening inputs stalls) plan.now.code r had (had + most) start date machine.old eyes.old.scene.now
        eyes.old.taken.now.items eyes.old.outbox.now × AllPay (opened_of plan.now opening inputs stalls) r had (had + most) }
    ensures of { IsOf plan.now.code machine.new }
    ensures count { result.count ≤ most }
    ensures whole { result.step ≡ step.Went → result.count ≡ most }
    ensures some { result.step ≢ step.Went → 1 ≤ result.count }
    ensures leaves { (opening : Opening) (inputs : List (List ℤ)) (stalls : ℕ → List Stall) (r : Action) (had : ℕ)
        → MayGoOn (opened_of plan.now opening inputs stalls) plan.now.code r had (had + most) start date machine.old eyes.old.scene.now
        eyes.old.taken.now.items eyes.old.outbox.now → AllPay (opened_of plan.now opening inputs stalls) r had (had + most)
        → Steps (opened_of plan.now opening inputs stalls) plan.now.code r had most date result.count result.step machine.new
        eyes.new.outbox.now.sends eyes.new.taken.now.items reaches.old.items reaches.new.items }
    ensures reaching { length reaches.new.items ≡ length reaches.old.items }
    ensures same_taken { eyes.new.taken.ghost_name ≡ eyes.old.taken.ghost_name }
    ensures same_outbox { eyes.new.outbox.ghost_name ≡ eyes.old.outbox.ghost_name }
    ensures scene { eyes.new.scene.now ≡ eyes.old.scene.now }
    ensures size { eyes.new.outbox.now.size ≡ eyes.old.outbox.now.size }
    ensures taking { length eyes.new.taken.now.items ≡ length eyes.old.taken.now.items }
    ensures others { (stream : ℕ) → (is_mine eyes.old.scene.now stream ≡ Some true → ⊥)
        → slice_get eyes.new.taken.now.items stream ≡ slice_get eyes.old.taken.now.items stream }
{
    let mut count = 0;
    'steps: while count < most {
        eyes.noted = None;
        let step = machine.step(&plan.code, eyes);
        note(plan, eyes.noted, start, date, reaches);
        count += 1;
        match step {
            Step::Went => {}
            Step::Ended(point) => {
                return Executed {
                    count,
                    step: Step::Ended(point),
                };
            }
            Step::Trapped(kind) => {
                return Executed {
                    count,
                    step: Step::Trapped(kind),
                };
            }
        }
    }
    Executed {
        count,
        step: Step::Went,
    }
}

/// Gives a pending action cycles in a row, up to so many, until it is over: stalls at once, and what no stall stands between in one loop.
fn stretch(
    plan: &Plan,
    start: u64,
    date: u64,
    most: u64,
    runner: &mut Runner,
    eyes: &mut Eyes,
    reaches: &mut Vec<Option<u32>>,
) -> Passed
    requires plan { IsPlan plan.now }
    requires of { IsOf plan.now.code runner.old.machine }
    requires early { (start ≤ date) × (date ≤ 2 ^ 40) }
    requires some { 1 ≤ most }
    requires reaching { length reaches.old.items ≡ length plan.now.unit.variables }
    requires given { (opening : Opening) × (inputs : List (List ℤ)) × (stalls : ℕ → List Stall) × (r : Action) × (had : ℕ)
        × MayGoOn (opened_of plan.now opening inputs stalls) plan.now.code r had (had + most) start date runner.old.machine eyes.old.scene.now
        eyes.old.taken.now.items eyes.old.outbox.now
        × (runner.old.charge ≡ charge_after (opened_of plan.now opening inputs stalls) r had) × (had < work r) }
    ensures of { IsOf plan.now.code runner.new.machine }
    ensures figure { runner.new.figure ≡ runner.old.figure }
    ensures count { (1 ≤ result.cycles) × (result.cycles ≤ most) }
    ensures whole { result.gone ≡ gone.Going → result.cycles ≡ most }
    ensures passes { (opening : Opening) (inputs : List (List ℤ)) (stalls : ℕ → List Stall) (r : Action) (had : ℕ)
        → MayGoOn (opened_of plan.now opening inputs stalls) plan.now.code r had (had + most) start date runner.old.machine eyes.old.scene.now
        eyes.old.taken.now.items eyes.old.outbox.now
        → runner.old.charge ≡ charge_after (opened_of plan.now opening inputs stalls) r had → had < work r
        → Passes (opened_of plan.now opening inputs stalls) plan.now.code r had most date result.cycles result.gone runner.new.charge
        runner.new.machine eyes.new.outbox.now.sends eyes.new.taken.now.items reaches.old.items reaches.new.items }
    ensures reaching { length reaches.new.items ≡ length reaches.old.items }
    ensures same_taken { eyes.new.taken.ghost_name ≡ eyes.old.taken.ghost_name }
    ensures same_outbox { eyes.new.outbox.ghost_name ≡ eyes.old.outbox.ghost_name }
    ensures scene { eyes.new.scene.now ≡ eyes.old.scene.now }
    ensures size { eyes.new.outbox.now.size ≡ eyes.old.outbox.now.size }
    ensures taking { length eyes.new.taken.now.items ≡ length eyes.old.taken.now.items }
    ensures others { (stream : ℕ) → (is_mine eyes.old.scene.now stream ≡ Some true → ⊥)
        → slice_get eyes.new.taken.now.items stream ≡ slice_get eyes.old.taken.now.items stream }
{
    laws::stretches();
    let mut cycles = 0;
    'parts: while cycles < most && !runner.charge.spent() {
        cycles += runner.charge.skip(most - cycles);
        let free = runner.charge.free(most - cycles);
        let done = burst(plan, start, date, free, &mut runner.machine, eyes, reaches);
        runner.charge.pay(done.count);
        cycles += done.count;
        match done.step {
            Step::Went => {}
            Step::Ended(point) => {
                return Passed {
                    cycles,
                    gone: Gone::Ended(point),
                };
            }
            Step::Trapped(kind) => {
                return Passed {
                    cycles,
                    gone: Gone::Trapped(kind),
                };
            }
        }
    }
    Passed {
        cycles,
        gone: going(&runner.charge),
    }
}

/// The cycles that may go to an agent's action in a row: from the one of this number on, up to so many, after a date.
#[derive(Clone, Copy, Debug)]
pub(super) struct Span {
    pub(super) agent: u32,
    pub(super) cycle: u64,
    pub(super) most: u64,
    pub(super) date: u64,
}

/// What cycles in a row came to: how many they were, and whether the action goes on behind them.
#[derive(Clone, Copy, Debug)]
pub(super) struct Lasted {
    pub(super) cycles: u64,
    pub(super) goes: bool,
}

/// Gives an agent's action these cycles, until it is over or all are done.
pub(super) fn go_on(
    plan: &Plan,
    span: Span,
    rings: &[Ring],
    queues: &[Queue],
    runner: &mut Runner,
    seat: &mut Seat,
    ended: &mut Vec<i32>,
    taken: &mut Vec<u32>,
    outbox: &mut Outbox,
    reaches: &mut Vec<Option<u32>>,
) -> Lasted
    requires plan { IsPlan plan.now }
    requires known { span.agent < length plan.now.unit.agents }
    requires valued { length ended.old.items ≡ length plan.now.unit.variables }
    requires early { span.date ≤ 2 ^ 40 }
    requires few { All (λ ring. length ring ≤ RING) rings.now }
    requires some { 1 ≤ span.most }
    requires inside { (span.date < plan.now.until) × (span.cycle + span.most ≤ (span.date + 1) * plan.now.unit.quantum) }
    requires reaching { length reaches.old.items ≡ length plan.now.unit.variables }
    requires given { (opening : Opening) × (inputs : List (List ℤ)) × (stalls : ℕ → List Stall) × (turns : ℕ → List (Option Turn)) × (r : Action)
        × (before : List Action) × (waits : Option ℕ)
        × MayLast plan.now opening inputs stalls turns span r before runner.old waits seat.old ended.old.items rings.now queues.now taken.old.items
        outbox.old }
    ensures count { (1 ≤ result.cycles) × (result.cycles ≤ span.most) }
    ensures whole { result.goes ≡ true → result.cycles ≡ span.most }
    ensures lasts { (opening : Opening) (inputs : List (List ℤ)) (stalls : ℕ → List Stall) (turns : ℕ → List (Option Turn)) (r : Action)
        (before : List Action) (waits : Option ℕ)
        → MayLast plan.now opening inputs stalls turns span r before runner.old waits seat.old ended.old.items rings.now queues.now taken.old.items
        outbox.old
        → Lasts plan.now opening inputs stalls turns span.date span.agent r before waits result.cycles result.goes runner.new seat.new ended.new.items
        outbox.new.sends taken.new.items reaches.old.items reaches.new.items }
    ensures reaching { length reaches.new.items ≡ length reaches.old.items }
    ensures size { outbox.new.size ≡ outbox.old.size }
    ensures taking { length taken.new.items ≡ length taken.old.items }
    ensures untaken { (stream : ℕ) (decl : StreamDecl) → slice_get plan.now.unit.streams stream ≡ Some decl → decl.receiver ≢ span.agent
        → slice_get taken.new.items stream ≡ slice_get taken.old.items stream }
    ensures others { (variable : ℕ) (v : VarDecl) → slice_get plan.now.unit.variables variable ≡ Some v → v.owner ≢ Some span.agent
        → slice_get ended.new.items variable ≡ slice_get ended.old.items variable }
    ensures all { length ended.new.items ≡ length ended.old.items }
{
    let scene = Scene::new(&plan.unit, rings, queues, span.agent, seat.start, span.date);
    let mut eyes = Eyes {
        scene: &scene,
        taken,
        outbox,
        noted: None,
    };
    let start = seat.start;
    let done = stretch(
        plan, start, span.date, span.most, runner, &mut eyes, reaches,
    );
    match done.gone {
        Gone::Going => {
            return Lasted {
                cycles: done.cycles,
                goes: true,
            };
        }
        Gone::Ended(point) => {
            seat.phase = Phase::Ended;
            seat.end = end_of(&plan.unit, span.agent, seat.start, point);
            seat.reached = point;
            keep_copies(ended, plan, span.agent, &runner.machine);
        }
        Gone::Trapped(kind) => stop(seat, Some(kind)),
        Gone::Spent => stop(seat, None),
    }
    runner.figure = figured(
        runner.figure,
        plan.until,
        plan.unit.quantum,
        seat.deadline,
        span.cycle + done.cycles,
    );
    Lasted {
        cycles: done.cycles,
        goes: false,
    }
}
