//! A processor goes on by itself: up to its first change, or up to a cycle.
ghost use Rattle.std.specs.Prelude.{◌≡◌, ℕ, ◌*◌, ◌<◌, ◌≤◌, Some, length, replicate, slice_get, slice_set};
ghost use Rattle.psy_dates.specs.Standing.{dates_done};
ghost use Rattle.psy_history.specs.Processors.{processors};
ghost use Rattle.psy_history.specs.declared.told.Order.{Order};
ghost use Rattle.psy_kernel.specs.Engines.{ChangesOn, done_on, next_date};

use super::Engine;
use psy_history::Order;

/// The first cycle of the date that comes next in a run up to a date.
fn first_cycle(date: Option<u64>, quantum: u32, until: u32) -> u64
    requires { dates_done date ≤ until }
    ensures most { until ≤ 4294967295 }
    ensures first { result ≡ dates_done date * quantum }
{
    match date {
        Some(date) => (date + 1) * u64::from(quantum),
        None => 0,
    }
}

/// The cycle of the next order where it comes before another cycle, and else that one.
fn order_or(orders: &[Order], passed: usize, date: u64) -> u64
    ensures no_later { result ≤ date }
    ensures ahead { (o : Order) → slice_get orders.now passed ≡ Some o → result ≤ o.cycle }
    ensures at { result < date → (o : Order) × (slice_get orders.now passed ≡ Some o) × (o.cycle ≡ result) }
{
    if passed < orders.len() && orders[passed].cycle < date {
        return orders[passed].cycle;
    }
    date
}

impl Engine {
    /// How many cycles of a processor were done.
    pub(crate) fn done_on(&self, processor: u32) -> u64
        requires known { processor < length self.now.done }
        ensures done { result ≡ done_on self.now processor }
    {
        self.servers[processor as usize].cycles
    }

    /// The first cycle of the date that comes next.
    pub(crate) fn next_date(&self) -> u64
        requires early { self.now.dates ≤ self.now.plan.until }
        ensures first { result ≡ next_date self.now }
    {
        first_cycle(self.shared.date, self.plan.unit.quantum, self.plan.until)
    }

    /// Does the next cycles of a processor up to its first change, or up to the cycle `limit`, which comes no later than the next date: behind
    /// them an action is finished or stopped, or another order comes into force. It takes no memory.
    pub(crate) fn go_ahead(&mut self, processor: u32, limit: u64)
        requires known { processor < length self.old.done }
        requires early { self.old.dates ≤ self.old.plan.until }
        requires due { done_on self.old processor < limit }
        requires within { limit ≤ next_date self.old }
        ensures state { self.new ≡ record self.old { done = slice_set self.old.done processor (done_on self.new processor) } }
        ensures count { (done_on self.old processor < done_on self.new processor) × (done_on self.new processor ≤ limit) }
        ensures change { done_on self.new processor < limit → ChangesOn self.old processor (done_on self.new processor) }
        ensures first { (between : ℕ) → done_on self.old processor < between → between < done_on self.new processor
            → ChangesOn self.old processor between → ⊥ }
    {
        let number = processor as usize;
        let server = &self.servers[number];
        let end = order_or(self.script.orders.as_slice(), server.passed, limit);
        let most = end - server.cycles;
        self.give(processor, most);
    }

    /// Does the next cycles of a processor up to this one, whatever changes on the way. It takes no memory.
    fn go_to(&mut self, processor: u32, end: u64)
        requires known { processor < length self.old.done }
        requires early { self.old.dates ≤ self.old.plan.until }
        requires behind { done_on self.old processor ≤ end }
        requires within { end ≤ next_date self.old }
        ensures state { self.new ≡ record self.old { done = slice_set self.old.done processor end } }
    {
        'parts: while self.done_on(processor) < end {
            self.go_ahead(processor, end);
        }
    }

    /// Does the next cycles of all processors up to this one, each by itself: what it does depends on nothing that others do. It takes no
    /// memory.
    pub(crate) fn go_all(&mut self, end: u64)
        requires early { self.old.dates ≤ self.old.plan.until }
        requires served { length self.old.done ≡ processors self.old.plan.unit }
        requires behind { (processor done : ℕ) → slice_get self.old.done processor ≡ Some done → done ≤ end }
        requires within { end ≤ next_date self.old }
        ensures state { self.new ≡ record self.old { done = replicate (processors self.old.plan.unit) end } }
    {
        'processors: for processor in 0..self.processors() {
            self.go_to(processor, end);
        }
    }
}
