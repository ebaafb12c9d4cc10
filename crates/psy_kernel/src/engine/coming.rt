//! What the next unit of a processor goes to, before it is given.
ghost use Rattle.std.specs.Prelude.{◌≡◌, ◌≢◌, ℕ, ◌^◌, ◌<◌, ◌≤◌, List, [], IsSome, Some, get_or, length, ℤ};
ghost use Rattle.psy_base.specs.declared.limits.TheConstants.{RING};
ghost use Rattle.psy_budget.specs.declared.charge.Stall.{Stall};
ghost use Rattle.psy_clock.specs.Dates.{count};
ghost use Rattle.psy_code.specs.Views.{past_of};
ghost use Rattle.psy_dates.specs.Plans.{IsPlan, opened_of, system_of};
ghost use Rattle.psy_history.specs.Actions.{Action, Opening, System, publishing};
ghost use Rattle.psy_kernel.specs.Acting.{IsLookIn};
ghost use Rattle.psy_kernel.specs.Engines.{done_on, history_of, next_date, ties};
ghost use Rattle.psy_kernel.specs.Seeing.{view_in};
ghost use Rattle.psy_kernel.specs.Standing.{IsRunning, charge_after};
ghost use Rattle.psy_kernel.specs.Units.{IsLookAt, IsLookOf, MaySee, served_at};
ghost use Rattle.psy_history.specs.Rings.{slot_of};

use super::cycle::{choose, gets, last_date, order_by};
use super::{Engine, Runner};
use crate::eyes::{Scene, clock_in};
use crate::seen::{Coming, Seen};
use psy_dates::Plan;

/// The place in a ring of this size of the value of so many dates back, of those up to now.
fn slot_of(size: u32, dates: u64, back: u32) -> u32
    requires some { 1 ≤ size }
    requires small { size ≤ RING }
    requires early { dates ≤ 2 ^ 41 }
    ensures { result ≡ slot_of size dates back }
{
    let size = u64::from(size);
    let places = dates + (size - 1) * (u64::from(back) + 1);
    (places % size) as u32
}

/// How many dates a variable has up to this one.
fn dates_of(plan: &Plan, variable: u32, date: u64) -> u64
    requires plan { IsPlan plan.now }
    requires known { variable < length plan.now.unit.variables }
    requires early { date ≤ 2 ^ 40 }
    ensures { result ≡ count (publishing (system_of plan.now [] (λ agent. [])) variable) date }
{
    let of = &plan.unit.variables.as_slice()[variable as usize];
    clock_in(plan.unit.clocks.as_slice(), of.clock).count_to(date)
}

/// What an action that started at a date sees of a variable, and the place of that value in the variable's ring.
fn see(plan: &Plan, scene: &Scene, start: u64, variable: u32, back: u32) -> Seen
    requires plan { IsPlan plan.now }
    requires early { start ≤ 2 ^ 40 }
    requires known { variable < length plan.now.unit.variables }
    requires shown { IsSome (past_of (view_in scene.now.rings scene.now.variables scene.now.clocks scene.now.start scene.now.date []) variable back) }
    ensures variable { result.variable ≡ variable }
    ensures back { result.back ≡ back }
    ensures slot { result.slot
        ≡ slot_of (get_or plan.now.sizes.rings variable 0) (count (publishing (system_of plan.now [] (λ agent. [])) variable) start) back }
    ensures value { past_of (view_in scene.now.rings scene.now.variables scene.now.clocks scene.now.start scene.now.date []) variable back
        ≡ Some result.value }
{
    let dates = dates_of(plan, variable, start);
    let size = plan.sizes.rings.as_slice()[variable as usize];
    Seen {
        variable,
        back,
        slot: slot_of(size, dates, back),
        value: scene.past(variable, back),
    }
}

/// What the next cycle of an action looks at: the variable and how far back, where the cycle pays an instruction that makes a look.
fn look_of(plan: &Plan, runner: &Runner) -> Option<(u32, u32)>
    ensures { (s : System) (r : Action) (had : ℕ) → runner.now.charge ≡ charge_after s r had
        → IsRunning plan.now.code r (charge_after s r had).paid runner.now.machine → IsLookIn s plan.now.code r had result }
{
    if runner.charge.free(1) == 0 {
        return None;
    }
    runner.machine.look_due(&plan.code)
}

/// The look of the next cycle of an action that started at a date, with what is found there.
fn seen_of(plan: &Plan, scene: &Scene, runner: &Runner, start: u64) -> Option<Seen>
    requires plan { IsPlan plan.now }
    requires early { start ≤ 2 ^ 40 }
    requires may { (opening : Opening) × (inputs : List (List ℤ)) × (stalls : ℕ → List Stall) × (r : Action) × (had : ℕ)
        × MaySee (opened_of plan.now opening inputs stalls) plan.now r had runner.now scene.now start }
    ensures { (opening : Opening) (inputs : List (List ℤ)) (stalls : ℕ → List Stall) (r : Action) (had : ℕ)
        → MaySee (opened_of plan.now opening inputs stalls) plan.now r had runner.now scene.now start
        → IsLookOf (opened_of plan.now opening inputs stalls) plan.now r had result }
{
    match look_of(plan, runner) {
        None => None,
        Some((variable, back)) => Some(see(plan, scene, start, variable, back)),
    }
}

impl Engine {
    /// Which agent gets the next cycle of a processor, and what its action looks at with it. It takes no memory.
    pub(crate) fn coming(&self, processor: u32) -> Coming
        requires known { processor < length self.now.done }
        requires early { self.now.dates ≤ self.now.plan.until }
        requires due { done_on self.now processor < next_date self.now }
        ensures ran { result.ran ≡ served_at (history_of self.now) (ties self.now) processor (done_on self.now processor) }
        ensures seen { IsLookAt (history_of self.now) self.now.plan (ties self.now) processor (done_on self.now processor) result.seen }
    {
        gets(self.plan.until);
        let server = &self.servers[processor as usize];
        let order = order_by(
            self.declared.as_slice(),
            self.script.orders.as_slice(),
            server.passed,
        );
        match choose(&server.ready, order, server.stale, server.chosen) {
            None => Coming {
                ran: None,
                seen: None,
            },
            Some(agent) => {
                let own = agent as usize;
                let date = last_date(self.shared.date);
                let start = self.shared.seats[own].start;
                let scene = Scene::new(
                    &self.plan.unit,
                    &self.shared.rings,
                    &self.shared.queues,
                    agent,
                    start,
                    date,
                );
                Coming {
                    ran: Some(agent),
                    seen: seen_of(&self.plan, &scene, &self.runners[own], start),
                }
            }
        }
    }
}
