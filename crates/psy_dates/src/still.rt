//! Dates at which nothing happens, and how far they reach.
ghost use Rattle.std.specs.Prelude.{◌≡◌, ◌⊎◌, ℕ, ◌<◌, ◌≤◌, Some, slice_get};
ghost use Rattle.psy_base.specs.declared.message.Message.{Message};
ghost use Rattle.psy_queue.specs.Order.{AreInOrder, Queued};
ghost use Rattle.psy_dates.specs.Still.{IsStill, passed};

use crate::shared::Shared;
use psy_queue::Queue;

// The date at which the message at a place of a queue becomes visible; none becomes so earlier behind it.
fn visible_at(queue: &Queue, place: u32) -> u64
    ensures least { (k : ℕ) (m : Message) → place ≤ k → slice_get queue.now.messages k ≡ Some m → result ≤ m.visible }
    ensures order { AreInOrder queue.now.messages }
{
    let held = queue.held();
    if place < held {
        queue.message(place).visible
    } else {
        u64::MAX
    }
}

// A date from this one on before which no message of a queue becomes visible.
fn next_shown(queue: &Queue, date: u64) -> u64
    ensures { (k : ℕ) (m : Message) → slice_get queue.now.messages k ≡ Some m → (m.visible < date) ⊎ (result ≤ m.visible) }
{
    if date == 0 {
        return visible_at(queue, 0);
    }
    visible_at(queue, queue.seen(date - 1))
}

impl Shared {
    /// A date before which nothing happens but that messages are shown, where no action is under way: 0 where an agent was stopped. It takes no memory.
    pub fn still_until(&self) -> u64
        ensures { (date : ℕ) → date < result → IsStill date self.now }
    {
        if self.movers.stopped {
            return 0;
        }
        self.movers.least.min(self.calendar.least())
    }

    /// A date from this one on before which no message of a stream becomes visible. It takes no memory.
    pub fn shown_from(&self, date: u64) -> u64
        ensures { (stream : ℕ) (queue : Queued) → slice_get self.now.queues.items stream ≡ Some queue
            → (k : ℕ) (m : Message) → slice_get queue.messages k ≡ Some m → (m.visible < date) ⊎ (result ≤ m.visible) }
    {
        let mut least = u64::MAX;
        'streams: for stream in 0..self.queues.len() {
            least = least.min(next_shown(&self.queues[stream], date));
        }
        least
    }

    /// Goes on to a date behind which all dates up to it were still. It takes no memory.
    pub fn pass(&mut self, date: u64)
        ensures { self.new ≡ passed date self.old }
    {
        self.movers.moved.clear();
        self.date = Some(date);
    }
}
