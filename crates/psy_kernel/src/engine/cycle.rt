//! A cycle: the agent that gets it, and what becomes of its action.
ghost use Rattle.std.specs.Prelude.{◌≡◌, ◌≢◌, ℕ, ◌+◌, ◌*◌, ◌-◌, ◌^◌, ◌<◌, ◌≤◌, List, [], ◌∷◌, Option, Some, None, length, nat_lt, slice_get, slice_set};
ghost use Rattle.std.specs.Prelude.{IsFalse, IsSome, IsTrue, true, false, ℤ};
ghost use Rattle.std.specs.List.{AllPairs};
ghost use Rattle.psy_budget.specs.declared.charge.Stall.{Stall};
ghost use Rattle.psy_code.specs.Execution.{copy_of};
ghost use Rattle.psy_code.specs.declared.code.CopyInit.{CopyInit};
ghost use Rattle.psy_dates.specs.declared.plan.Plan.{Plan};
ghost use Rattle.psy_dates.specs.Plans.{IsPlan, IsSoundFor, opened_of, system_of};
ghost use Rattle.psy_dates.specs.Standing.{dates_done};
ghost use Rattle.psy_history.specs.Compiled.{AreInputs};
ghost use Rattle.psy_history.specs.Regular.{IsLawful};
ghost use Rattle.psy_history.specs.Actions.{Action, History, Opening, System};
ghost use Rattle.psy_tree.specs.Parts.{agent_at};
ghost use Rattle.psy_history.specs.History.{history};
ghost use Rattle.psy_history.specs.Processors.{processor_at};
ghost use Rattle.psy_history.specs.Schedule.{Turn, is_pending};
ghost use Rattle.psy_history.specs.Scheduled.{gone_to};
ghost use Rattle.psy_history.specs.Summary.{reach};
ghost use Rattle.psy_base.specs.Extremes.{greater};
ghost use Rattle.psy_meaning.specs.Timing.{end_date, timing_of};
ghost use Rattle.psy_ready.specs.Choice.{ListsEach};
ghost use Rattle.psy_tree.specs.declared.unit.VarDecl.{VarDecl};
ghost use Rattle.psy_kernel.specs.Cycles.{AreOver, GetsCycle, IsCycleOf, IsNear, LooksBack, MayEnd, figured};
ghost use Rattle.psy_kernel.specs.Cycles.{order_by, reach_by, run_of, run_turns};
ghost use Rattle.psy_history.specs.declared.told.Script.{Script};
ghost use Rattle.psy_history.specs.Scripts.{stalls_of};
ghost use Rattle.psy_kernel.specs.Engines.{IsOverOn, done_on, next_date};
ghost use Rattle.psy_ready.specs.Choice.{pending_deadline};
ghost use Rattle.psy_kernel.specs.Standing.{AreInForce, IsChosen};

use super::stretch::{Span, go_on};
use super::{Engine, Figure, Server};
use crate::eyes::{clock_in, dates_between};
use psy_arith::Trap;
use psy_code::CopyInit;
use psy_dates::{Phase, Plan, Seat};
use psy_history::Order;
use psy_history::laws::{
    deeds, fitting, on_time, openings, queues, reaches, regular, ring_sizes, rings,
};
use psy_machine::Machine;
use psy_ready::Ready;
use psy_tree::Unit;

/// The order of the last of so many orders that have come into force, and the first one where none has.
pub(super) fn order_by<'a>(declared: &'a [u32], orders: &'a [Order], passed: usize) -> &'a [u32]
    requires { passed ≤ length orders.now }
    ensures { result.now ≡ order_by declared.now orders.now passed }
{
    if passed == 0 {
        return declared;
    }
    orders[passed - 1].agents.as_slice()
}

/// How many orders have come into force by a cycle, where so many had before it and no other one has come since. They rise strictly, so it
/// is one more at most.
fn passed_by(orders: &[Order], passed: usize, next: u64) -> usize
    requires rise { AllPairs (λ o p. o.cycle < p.cycle) orders.now }
    requires in_force { (cycle : ℕ) × (cycle < next) × AreInForce orders.now passed cycle }
    requires ahead { (o : Order) → slice_get orders.now passed ≡ Some o → next ≤ o.cycle }
    ensures in_force { AreInForce orders.now result next }
    ensures no_less { passed ≤ result }
{
    if passed < orders.len() && orders[passed].cycle == next {
        return passed + 1;
    }
    passed
}

/// The agent that gets the next cycle: the one that was chosen, as long as nothing has changed since.
pub(super) fn choose(ready: &Ready, order: &[u32], stale: bool, chosen: Option<u32>) -> Option<u32>
    requires lists { ListsEach (length ready.now) order.now }
    requires fresh { stale ≡ false → IsChosen ready.now order.now chosen }
    ensures { IsChosen ready.now order.now result }
{
    if stale { ready.pick(order) } else { chosen }
}

/// The variable of a working copy in a list of them.
fn variable_in(own: &[CopyInit], place: usize) -> u32
    requires { place < length own.now }
    ensures { (copy : CopyInit) → slice_get own.now place ≡ Some copy → copy.variable ≡ result }
{
    own[place].variable
}

/// Keeps the working copies of these variables.
fn keep_listed(ended: &mut Vec<i32>, own: &[CopyInit], machine: &Machine)
    requires known { (place : ℕ) (copy : CopyInit) → slice_get own.now place ≡ Some copy → copy.variable < length ended.old.items }
    requires copies { (place : ℕ) (copy : CopyInit) → slice_get own.now place ≡ Some copy → IsSome (copy_of copy.variable machine.now.machine.copies) }
    ensures own { (place : ℕ) (copy : CopyInit) (value : ℤ) → slice_get own.now place ≡ Some copy
        → slice_get ended.new.items copy.variable ≡ Some value → copy_of copy.variable machine.now.machine.copies ≡ Some value }
    ensures others { (variable : ℕ) → ((place : ℕ) (copy : CopyInit) → slice_get own.now place ≡ Some copy → copy.variable ≢ variable)
        → slice_get ended.new.items variable ≡ slice_get ended.old.items variable }
    ensures all { length ended.new.items ≡ length ended.old.items }
{
    'copies: for place in 0..own.len() {
        let variable = variable_in(own, place);
        ended[variable as usize] = machine.copy(variable);
    }
}

/// Keeps the working copies of all variables that an agent owns.
pub(super) fn keep_copies(ended: &mut Vec<i32>, plan: &Plan, agent: u32, machine: &Machine)
    requires plan { IsPlan plan.now }
    requires known { agent < length plan.now.unit.agents }
    requires valued { length ended.old.items ≡ length plan.now.unit.variables }
    requires copies { (variable : ℕ) (v : VarDecl) → slice_get plan.now.unit.variables variable ≡ Some v → v.owner ≡ Some agent
        → IsSome (copy_of variable machine.now.machine.copies) }
    ensures own { (variable : ℕ) (v : VarDecl) (value : ℤ) → slice_get plan.now.unit.variables variable ≡ Some v → v.owner ≡ Some agent
        → slice_get ended.new.items variable ≡ Some value → copy_of variable machine.now.machine.copies ≡ Some value }
    ensures others { (variable : ℕ) (v : VarDecl) → slice_get plan.now.unit.variables variable ≡ Some v → v.owner ≢ Some agent
        → slice_get ended.new.items variable ≡ slice_get ended.old.items variable }
    ensures all { length ended.new.items ≡ length ended.old.items }
{
    let of = &plan.code.agents.as_slice()[agent as usize];
    keep_listed(ended, of.copies.as_slice(), machine);
}

/// The date at which an action of an agent that started at a date ends where it reaches this point.
pub(super) fn end_of(unit: &Unit, agent: u32, start: u64, point: u32) -> u64
    requires known { agent < length unit.now.agents }
    requires may { (nexts : List (List ℕ)) × MayEnd (timing_of unit.now (agent_at unit.now agent) nexts) start point }
    ensures { (nexts : List (List ℕ)) → result ≡ end_date (timing_of unit.now (agent_at unit.now agent) nexts) start point }
{
    let of = &unit.agents.as_slice()[agent as usize];
    let at = of.points.as_slice()[point as usize];
    unit.clocks.as_slice()[at.clock as usize].after(start, at.count)
}

/// The figure of an agent whose action with this deadline is finished or stopped when so many cycles are done.
pub(super) fn figured(figure: Figure, until: u32, quantum: u32, deadline: u64, done: u64) -> Figure
    requires count { figure.count ≤ 2 ^ 50 + until }
    requires early { done ≤ deadline * quantum }
    ensures { result ≡ figured until quantum deadline done figure }
{
    if deadline > u64::from(until) {
        return figure;
    }
    let slack = deadline * u64::from(quantum) - done;
    let least = match figure.slack {
        Some(least) => slack.min(least),
        None => slack,
    };
    Figure {
        count: figure.count + 1,
        slack: Some(least),
    }
}

/// The seat of an agent whose action was stopped, by a trap or by its budget.
pub(super) fn stop(seat: &mut Seat, trap: Option<Trap>)
    ensures { seat.new ≡ record seat.old { phase = Phase.Stopped; trap = trap } }
{
    seat.phase = Phase::Stopped;
    seat.trap = trap;
}

/// How far back a ring was reached for, with a look at this age.
fn reached(reach: Option<u32>, age: u32) -> Option<u32>
    ensures { result ≡ greater age reach }
{
    match reach {
        Some(reach) => Some(age.max(reach)),
        None => Some(age),
    }
}

/// Notes how far back the look of a cycle reached for its variable's ring, where the cycle made one: it was made at a date, by an action
/// that started at another.
#[inline(always)]
pub(super) fn note(
    plan: &Plan,
    look: Option<(u32, u32)>,
    start: u64,
    date: u64,
    reaches: &mut Vec<Option<u32>>,
)
    requires plan { IsPlan plan.now }
    requires reaching { length reaches.old.items ≡ length plan.now.unit.variables }
    requires early { (start ≤ date) × (date ≤ 2 ^ 40) }
    requires near { IsNear (system_of plan.now [] (λ agent. [])) start date look }
    ensures reaching { length reaches.new.items ≡ length reaches.old.items }
    ensures reached { (opening : Opening) (inputs : List (List ℤ)) (stalls : ℕ → List Stall) (variable : ℕ) (n : Option ℕ)
        → slice_get reaches.old.items variable ≡ Some n
        → slice_get reaches.new.items variable ≡ Some (reach_by (opened_of plan.now opening inputs stalls) variable start date look n) }
{
    if let Some((variable, back)) = look {
        let number = variable as usize;
        let of = &plan.unit.variables.as_slice()[number];
        let clock = clock_in(plan.unit.clocks.as_slice(), of.clock);
        let passed = dates_between(clock, start, date);
        reaches[number] = reached(reaches[number], back + passed as u32);
    }
}

/// The date done last: 0 before date 0.
pub(super) fn last_date(date: Option<u64>) -> u64
    ensures { result ≡ dates_done date - 1 }
{
    match date {
        Some(date) => date,
        None => 0,
    }
}

/// In a run up to a date, from wherever it begins, of each agent's actions the last alone may be pending; and where it is, it can get the next
/// cycle, sees by the rings and the queues what it saw at its start, and looks no further back than the rings hold, whatever other agents did
/// since the date. A cycle that nobody gets reaches for none.
pub(super) fn gets(until: u32)
    ensures most { until ≤ 4294967295 }
    ensures over { (plan : Plan) (opening : Opening) (inputs : List (List ℤ)) (script : Script) (date cycle agent : ℕ)
        → IsCycleOf plan opening inputs script date cycle
        → AreOver (run_turns plan opening inputs script cycle agent) (history (run_of plan opening inputs script) (date + 1) agent) }
    ensures gets { (plan : Plan) (opening : Opening) (inputs : List (List ℤ)) (script : Script) (date cycle agent : ℕ) (r : Action) (before : List Action)
        → IsCycleOf plan opening inputs script date cycle
        → history (run_of plan opening inputs script) (date + 1) agent ≡ r ∷ before
        → is_pending (run_turns plan opening inputs script cycle agent) r ≡ true
        → GetsCycle (run_of plan opening inputs script) plan.code (run_turns plan opening inputs script cycle agent) plan.until date cycle agent r before }
    ensures looks { (plan : Plan) (opening : Opening) (inputs : List (List ℤ)) (script : Script) (date cycle agent : ℕ) (r : Action) (before : List Action)
        (turns : ℕ → List (Option Turn)) → IsCycleOf plan opening inputs script date cycle
        → turns agent ≡ run_turns plan opening inputs script cycle agent
        → history (run_of plan opening inputs script) (date + 1) agent ≡ r ∷ before
        → is_pending (turns agent) r ≡ true
        → LooksBack (run_of plan opening inputs script) plan.sizes plan.code turns date r }
    ensures idle { (s : System) (turns : ℕ → List (Option Turn)) (h : History) (processor variable : ℕ)
        → reach s (gone_to s.unit processor None turns) h variable ≡ reach s turns h variable }
    ensures same { (s : System) (turns others : ℕ → List (Option Turn)) (h : History) (variable : ℕ) → ((agent : ℕ) → turns agent ≡ others agent)
        → reach s turns h variable ≡ reach s others h variable }
    ensures lawful { (plan : Plan) (opening : Opening) (inputs : List (List ℤ)) (script : Script) → IsPlan plan
        → AreInputs plan.unit inputs → IsSoundFor plan opening inputs (stalls_of script)
        → IsLawful (run_of plan opening inputs script) }
{
    fitting();
    openings();
    regular();
    on_time();
    rings();
    ring_sizes();
    reaches();
    queues();
    deeds();
}

impl Engine {
    /// Does cycles of a processor in a row, from its next one on: of its pending actions, the one of the earliest deadline gets them, until it is
    /// over; at most so many, up to the next date and up to the cycle from which another order is in force. Tells whether an action is over with
    /// the last of them. It takes no memory.
    pub(crate) fn give(&mut self, processor: u32, most: u64) -> bool
        requires known { processor < length self.old.done }
        requires early { self.old.dates ≤ self.old.plan.until }
        requires some { 1 ≤ most }
        requires inside { done_on self.old processor + most ≤ next_date self.old }
        requires ahead { (place : ℕ) (o : Order) → slice_get self.old.script.orders place ≡ Some o → done_on self.old processor < o.cycle
            → done_on self.old processor + most ≤ o.cycle }
        ensures state { self.new ≡ record self.old { done = slice_set self.old.done processor (done_on self.new processor) } }
        ensures count { (done_on self.old processor < done_on self.new processor)
            × (done_on self.new processor ≤ done_on self.old processor + most) }
        ensures steady { (between : ℕ) → done_on self.old processor < between → between < done_on self.new processor
            → IsOverOn self.old processor between → ⊥ }
        ensures over { IsTrue result → IsOverOn self.old processor (done_on self.new processor) }
        ensures goes { IsFalse result → IsOverOn self.old processor (done_on self.new processor) → ⊥ }
        ensures whole { IsFalse result → done_on self.new processor ≡ done_on self.old processor + most }
    {
        gets(self.plan.until);
        let number = processor as usize;
        let server = &self.servers[number];
        let cycle = server.cycles;
        let order = order_by(
            self.declared.as_slice(),
            self.script.orders.as_slice(),
            server.passed,
        );
        let chosen = choose(&server.ready, order, server.stale, server.chosen);
        self.servers[number].chosen = chosen;
        match chosen {
            None => {
                count_to(
                    &mut self.servers[number],
                    self.script.orders.as_slice(),
                    cycle + most,
                );
                false
            }
            Some(agent) => {
                let own = agent as usize;
                let date = last_date(self.shared.date);
                let span = Span {
                    agent,
                    cycle,
                    most,
                    date,
                };
                let lasted = go_on(
                    &self.plan,
                    span,
                    &self.shared.rings,
                    &self.shared.queues,
                    &mut self.runners[own],
                    &mut self.shared.seats[own],
                    &mut self.shared.ended,
                    &mut self.shared.taken,
                    &mut self.shared.outboxes[own],
                    &mut self.reaches,
                );
                self.shared.movers.tell(self.shared.seats[own]);
                count_to(
                    &mut self.servers[number],
                    self.script.orders.as_slice(),
                    cycle + lasted.cycles,
                );
                if !lasted.goes {
                    drop_chosen(&mut self.servers[number], agent);
                    true
                } else {
                    false
                }
            }
        }
    }
}

/// Counts the cycles of a processor up to this one; the order whose cycle it is comes into force.
fn count_to(server: &mut Server, orders: &[Order], next: u64)
    requires rise { AllPairs (λ o p. o.cycle < p.cycle) orders.now }
    requires in_force { (cycle : ℕ) × (cycle < next) × AreInForce orders.now server.old.passed cycle }
    requires ahead { (o : Order) → slice_get orders.now server.old.passed ≡ Some o → next ≤ o.cycle }
    ensures state { server.new ≡ record server.old { cycles = next; passed = server.new.passed; stale = nat_lt server.old.passed server.new.passed } }
    ensures in_force { AreInForce orders.now server.new.passed next }
    ensures no_less { server.old.passed ≤ server.new.passed }
{
    let passed = passed_by(orders, server.passed, next);
    server.stale = passed > server.passed;
    server.passed = passed;
    server.cycles = next;
}

/// The chosen agent of a processor waits no longer.
fn drop_chosen(server: &mut Server, agent: u32)
    requires { (deadline : ℕ) × (pending_deadline server.old.ready agent ≡ Some deadline) }
    ensures { server.new ≡ record server.old { ready = slice_set server.old.ready agent None; stale = true } }
{
    server.ready.drop_agent(agent);
    server.stale = true;
}
