//! The agents that wait for the processor.
ghost use Rattle.std.specs.Prelude.{◌≡◌, ◌≢◌, ◌==◌, ◌<◌, ◌≤◌, ℕ, Some, None, IfOk, MatchOption, length, nat_lt, replicate, slice_get, slice_set};
ghost use Rattle.std.specs.List.{All, AllPairs, Contains, position};
ghost use Rattle.std.specs.List.Sorted.{IsPartitionPoint};
ghost use Rattle.psy_ready.specs.declared.ready.Pending.{Pending};
ghost use Rattle.psy_ready.specs.Choice.{IsPick, ListsEach, pending_deadline};
ghost use Rattle.psy_ready.specs.Standing.{IsFirstPlace};

use psy_base::Memory;
use std::alloc::Global;
use std::marker::Model;

/// The agents that wait for the processor, each with the deadline of its action. Contracts see them as a list by
/// agent: its deadline where it is pending, and None where it isn't.
#[derive(Drop)]
pub struct Ready {
    deadlines: Vec<Option<u64>>,
    /// The pending agents by deadline, in room for all.
    sorted: Vec<Pending>,
}

impl Model for Ready {
    ghost use Rattle.std.specs.Prelude.{List, Option, ℕ};
    ghost use Rattle.psy_ready.specs.Standing.{IsReady};

    ghost Value = { List (Option ℕ) };

    ghost view = { λ r. r.deadlines.items };

    ghost invariant = { IsReady };
}

/// A pending agent.
#[derive(Clone, Copy, Debug)]
struct Pending {
    agent: u32,
    deadline: u64,
}

/// How many of the pending agents are due no later than so, by a binary search.
fn no_later(sorted: &[Pending], deadline: u64) -> usize
    requires { AllPairs (λ (p q : Pending). p.deadline ≤ q.deadline) sorted.now }
    ensures point { IsPartitionPoint (λ (p : Pending). p.deadline ≤ deadline) (λ (p : Pending). deadline < p.deadline) sorted.now result }
    ensures within { result ≤ length sorted.now }
{
    sorted.partition_point(|pending| pending.deadline <= deadline)
}

/// The first place at which one is due later than so.
fn first_later(sorted: &[Pending], deadline: u64) -> Option<usize>
    ensures { result ≡ position (λ (p : Pending). nat_lt deadline p.deadline) sorted.now }
{
    sorted
        .iter()
        .position(|pending| deadline < pending.deadline)
}

/// How many are due no later than so, counted from the front.
fn front_len(sorted: &[Pending], deadline: u64) -> usize
    requires { AllPairs (λ (p q : Pending). p.deadline ≤ q.deadline) sorted.now }
    ensures point { IsPartitionPoint (λ (p : Pending). p.deadline ≤ deadline) (λ (p : Pending). deadline < p.deadline) sorted.now result }
    ensures within { result ≤ length sorted.now }
{
    first_later(sorted, deadline).unwrap_or(sorted.len())
}

/// Where an agent stands among the pending ones.
fn place_of(sorted: &[Pending], agent: u32) -> Option<usize>
    ensures { result ≡ position (λ (p : Pending). p.agent == agent) sorted.now }
{
    sorted.iter().position(|pending| pending.agent == agent)
}

/// Where an agent stands in an order, as a search finds it.
fn found_in(order: &[u32], agent: u32) -> Option<usize>
    ensures { result ≡ position (λ (n : ℕ). n == agent) order.now }
{
    order.iter().position(|listed| *listed == agent)
}

/// Where an agent stands in an order that lists it: at its own number, as in the order of declaration, or where a search finds it.
fn place_in(order: &[u32], agent: u32) -> usize
    requires { Contains order.now agent }
    ensures { slice_get order.now result ≡ Some agent }
{
    let own = agent as usize;
    if own < order.len() && order[own] == agent {
        return own;
    }
    found_in(order, agent).unwrap_or(0)
}

/// Where in an order the first of some agents stands.
fn first_place(due: &[Pending], order: &[u32]) -> usize
    requires some { 0 < length due.now }
    requires listed { All (λ (p : Pending). Contains order.now p.agent) due.now }
    requires once { AllPairs (λ (a b : ℕ). a ≢ b) order.now }
    ensures place { IsFirstPlace due.now order.now result }
    ensures within { result < length order.now }
{
    let mut least = order.len();
    for pending in due {
        least = least.min(place_in(order, pending.agent));
    }
    least
}

impl Ready {
    /// So many agents, none of which is pending. The only error is want of memory; no other call takes any.
    pub fn new(alloc: Global, agents: u32) -> Result<Ready, Memory>
        ensures { IfOk result (λ ready. ready ≡ replicate agents None) }
    {
        Ok(Ready {
            deadlines: vec![in alloc; None; agents as usize]?,
            sorted: Vec::with_capacity(alloc, agents as usize)?,
        })
    }

    /// An agent that isn't pending becomes so.
    pub fn add(&mut self, agent: u32, deadline: u64)
        requires within { agent < length self.old }
        requires free { pending_deadline self.old agent ≡ None }
        ensures pending { self.new ≡ slice_set self.old agent (Some deadline) }
        ensures agents { length self.new ≡ length self.old }
    {
        self.deadlines[agent as usize] = Some(deadline);
        let place = no_later(self.sorted.as_slice(), deadline);
        // There is room, so this takes no memory.
        let _ = self.sorted.insert(place, Pending { agent, deadline });
    }

    /// A pending agent is no longer so.
    pub fn drop_agent(&mut self, agent: u32)
        requires { (deadline : ℕ) × (pending_deadline self.old agent ≡ Some deadline) }
        ensures pending { self.new ≡ slice_set self.old agent None }
        ensures agents { length self.new ≡ length self.old }
    {
        self.deadlines[agent as usize] = None;
        if let Some(place) = place_of(self.sorted.as_slice(), agent) {
            self.sorted.remove(place);
        }
    }

    /// The pending agent of least deadline, ties going to the earlier place in the order; None exactly where nobody is
    /// pending.
    pub fn pick(&self, order: &[u32]) -> Option<u32>
        requires { ListsEach (length self.now) order.now }
        ensures { MatchOption result
            ((agent : ℕ) → pending_deadline self.now agent ≡ None)
            (λ agent. IsPick self.now order.now agent) }
    {
        let sorted = self.sorted.as_slice();
        if sorted.is_empty() {
            return None;
        }
        let first = sorted[0];
        if sorted.len() == 1 || first.deadline < sorted[1].deadline {
            return Some(first.agent);
        }
        let (due, _) = sorted.split_at(front_len(sorted, first.deadline));
        Some(order[first_place(due, order)])
    }
}
