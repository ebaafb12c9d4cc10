//! Which action of a processor comes first at a cycle, and up to which cycle it stays so.
ghost use Rattle.std.specs.Prelude.{◌≡◌, ◌<◌, ◌≤◌, ◌==◌, ℕ, List, Some, None, if◌then◌else◌, length};
ghost use Rattle.std.specs.List.{All};
ghost use Rattle.psy_audit.specs.Apart.{IsSteady};
ghost use Rattle.psy_audit.specs.Rows.{first_in, sooner_or, waits_at};
ghost use Rattle.psy_audit.specs.Turns.{soonest_of, sooner_of};
ghost use Rattle.psy_audit.specs.Waits.{is_waiting, pending_in};
ghost use Rattle.psy_history.specs.Processors.{processor_at};
ghost use Rattle.psy_history.specs.Scripts.{in_force};
ghost use Rattle.psy_meaning.specs.Units.{IsBare};

use crate::cycles::earlier;
use crate::order::next_order;
use crate::rows::AgentRow;
use crate::said::Act;
use crate::waits::{Wait, is_waiting};
use psy_base::Items;
use psy_dates::Plan;
use psy_history::{Order, processor_of};

/// The action that comes first on a processor at a cycle, in this order of the agents.
pub fn first_in(
    plan: &Plan,
    rows: &Items<AgentRow>,
    order: &[u32],
    processor: u64,
    cycle: u64,
) -> Option<Act>
    requires order { All (λ agent. agent < length plan.now.unit.agents) order.now }
    ensures { result ≡ first_in plan.now.unit rows.now processor cycle order.now }
{
    let mut first = None;
    'agents: for agent in order {
        first = sooner(first, first_of(plan, rows, *agent, processor, cycle));
    }
    first
}

// The action that comes first of those of an agent, where it is of this processor.
fn first_of(
    plan: &Plan,
    rows: &Items<AgentRow>,
    agent: u32,
    processor: u64,
    cycle: u64,
) -> Option<Act>
    requires agent { agent < length plan.now.unit.agents }
    ensures { result ≡ (if processor_at plan.now.unit agent == processor then soonest_of (pending_in cycle (waits_at rows.now agent)) else None) }
{
    if u64::from(processor_of(&plan.unit, agent)) == processor {
        soonest(waits_near(rows, agent, cycle), cycle)
    } else {
        None
    }
}

// Of the actions of the agent of a number those that tell which are pending at a cycle, and how long they stay so.
fn waits_near(rows: &Items<AgentRow>, agent: u32, cycle: u64) -> &[Wait]
    ensures now { pending_in cycle result.now ≡ pending_in cycle (waits_at rows.now agent) }
    ensures steady { (to c : ℕ) → cycle ≤ c → c < to → All (IsSteady cycle to) result.now
        → pending_in c (waits_at rows.now agent) ≡ pending_in cycle (waits_at rows.now agent) }
{
    match rows.get(agent as usize) {
        Some(row) => row.waits.near(cycle),
        None => &[],
    }
}

// Of some actions the one that comes first at a cycle.
fn soonest(waits: &[Wait], cycle: u64) -> Option<Act>
    ensures { result ≡ soonest_of (pending_in cycle waits.now) }
{
    let mut first = None;
    'waits: for wait in waits {
        first = sooner(first, pending(wait, cycle));
    }
    first
}

// The action, where it is pending.
fn pending(wait: &Wait, cycle: u64) -> Option<Act>
    ensures { result ≡ (if is_waiting cycle wait.now then Some wait.now.act else None) }
{
    if is_waiting(cycle, wait) {
        Some(wait.act)
    } else {
        None
    }
}

// The one of the earlier deadline; of equal ones the one before.
fn sooner(first: Option<Act>, later: Option<Act>) -> Option<Act>
    ensures { result ≡ sooner_or first later }
{
    match first {
        None => later,
        Some(act) => sooner_of(act, later),
    }
}

fn sooner_of(act: Act, later: Option<Act>) -> Option<Act>
    ensures { result ≡ sooner_of act later }
{
    match later {
        None => Some(act),
        Some(other) => {
            if act.due <= other.due {
                Some(act)
            } else {
                Some(other)
            }
        }
    }
}

/// The next cycle behind this one at which another action may come first on a processor, or the last one where there is none before it.
pub fn next_change(
    plan: &Plan,
    rows: &Items<AgentRow>,
    orders: &[Order],
    processor: u64,
    cycle: u64,
    to: u64,
) -> u64
    requires bare { IsBare plan.now.unit }
    requires some { cycle < to }
    ensures behind { cycle < result }
    ensures within { result ≤ to }
    ensures same { (declared : List ℕ) (c : ℕ) → All (λ agent. agent < length plan.now.unit.agents) (in_force declared orders.now cycle)
        → cycle ≤ c → c < result
        → first_in plan.now.unit rows.now processor c (in_force declared orders.now c)
        ≡ first_in plan.now.unit rows.now processor cycle (in_force declared orders.now cycle) }
{
    let mut next = next_order(orders, cycle, to);
    'agents: for agent in 0..plan.unit.agents.len() as u32 {
        next = next_of(plan, rows, agent, processor, cycle, next);
    }
    next
}

// The next cycle at which an action of an agent begins to wait or ends, where the agent is of this processor.
fn next_of(
    plan: &Plan,
    rows: &Items<AgentRow>,
    agent: u32,
    processor: u64,
    cycle: u64,
    to: u64,
) -> u64
    requires agent { agent < length plan.now.unit.agents }
    requires some { cycle < to }
    ensures behind { cycle < result }
    ensures within { result ≤ to }
    ensures same { processor_at plan.now.unit agent ≡ processor → (c : ℕ) → cycle ≤ c → c < result
        → pending_in c (waits_at rows.now agent) ≡ pending_in cycle (waits_at rows.now agent) }
{
    if u64::from(processor_of(&plan.unit, agent)) == processor {
        next_wait(waits_near(rows, agent, cycle), cycle, to)
    } else {
        to
    }
}

// The next cycle at which one of some actions begins to wait or ends.
fn next_wait(waits: &[Wait], cycle: u64, to: u64) -> u64
    requires { cycle < to }
    ensures behind { cycle < result }
    ensures within { result ≤ to }
    ensures steady { All (IsSteady cycle result) waits.now }
{
    let mut next = to;
    'waits: for wait in waits {
        let begun = released(next, cycle, wait.from);
        next = earlier(begun, cycle, wait.past);
    }
    next
}

// The earlier of a cycle and a release that lies behind another.
fn released(next: u64, cycle: u64, release: u128) -> u64
    requires { cycle < next }
    ensures behind { cycle < result }
    ensures within { result ≤ next }
    ensures passed { cycle < release → result ≤ release }
{
    if u128::from(cycle) < release && release < u128::from(next) {
        release as u64
    } else {
        next
    }
}
