//! For which processors nobody waits, and with which cycle an order comes into force.
ghost use Rattle.std.specs.Prelude.{◌≡◌, ℕ, ◌<◌, ◌≤◌, IfSome, IsFalse, IsTrue, length};
ghost use Rattle.psy_history.specs.Processors.{processors};
ghost use Rattle.psy_kernel.specs.Engines.{IsIdleOn, IsOrderedBy, done_on, next_date};

use super::Engine;
use super::cycle::gets;

impl Engine {
    /// Whether nobody waits for a processor: then no action of its agents is under way.
    fn is_idle(&self, processor: u32) -> bool
        requires known { processor < length self.now.done }
        requires early { self.now.dates ≤ self.now.plan.until }
        requires due { done_on self.now processor < next_date self.now }
        ensures idle { IsTrue result → IsIdleOn self.now processor }
    {
        gets(self.plan.until);
        let server = &self.servers[processor as usize];
        server.ready.pick(self.declared.as_slice()).is_none()
    }

    /// The first processor from this one on for which somebody waits, and the number of processors where there is none.
    fn busy_from(&self, from: u32) -> u32
        requires early { self.now.dates ≤ self.now.plan.until }
        requires served { length self.now.done ≡ processors self.now.plan.unit }
        requires due { (processor : ℕ) → processor < processors self.now.plan.unit → done_on self.now processor < next_date self.now }
        requires within { from ≤ processors self.now.plan.unit }
        ensures within { (from ≤ result) × (result ≤ processors self.now.plan.unit) }
        ensures idle { (processor : ℕ) → from ≤ processor → processor < result → IsIdleOn self.now processor }
    {
        let processors = self.processors();
        let mut processor = from;
        'idle: while processor < processors && self.is_idle(processor) {
            processor += 1;
        }
        processor
    }

    /// A processor but for which nobody waits for any, where there is such a one.
    pub(crate) fn leader(&self) -> Option<u32>
        requires early { self.now.dates ≤ self.now.plan.until }
        requires served { length self.now.done ≡ processors self.now.plan.unit }
        requires some { 1 ≤ processors self.now.plan.unit }
        requires due { (processor : ℕ) → processor < processors self.now.plan.unit → done_on self.now processor < next_date self.now }
        ensures known { IfSome result (λ leader. leader < processors self.now.plan.unit) }
        ensures alone { IfSome result (λ leader. (processor : ℕ) → processor < processors self.now.plan.unit → (processor ≡ leader → ⊥)
            → IsIdleOn self.now processor) }
    {
        let processors = self.processors();
        let first = self.busy_from(0);
        if first == processors {
            return Some(0);
        }
        if self.busy_from(first + 1) == processors {
            return Some(first);
        }
        None
    }

    /// Whether another order comes into force with the next cycle of a processor.
    pub(crate) fn is_ordered(&self, processor: u32) -> bool
        requires known { processor < length self.now.done }
        ensures yes { IsTrue result → IsOrderedBy self.now (done_on self.now processor) }
        ensures no { IsFalse result → IsOrderedBy self.now (done_on self.now processor) → ⊥ }
    {
        let server = &self.servers[processor as usize];
        let orders = self.script.orders.as_slice();
        server.passed > 0 && orders[server.passed - 1].cycle == server.cycles
    }
}
