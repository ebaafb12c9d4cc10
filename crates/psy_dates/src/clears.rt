//! What a date clears: what the actions that end there sent and took.

ghost use Rattle.std.specs.Prelude.{◌≡◌, ℕ, ◌<◌, [], length, if◌then◌else◌, Some, slice_get};
ghost use Rattle.std.specs.List.{All};
ghost use Rattle.psy_tree.specs.Parts.{stream_at};
ghost use Rattle.psy_dates.specs.Movers.{NamesAll, ends_in};
ghost use Rattle.psy_dates.specs.Moves.{ends_at};
ghost use Rattle.psy_dates.specs.Outboxes.{Outboxed};

use crate::commits::ends_there;
use crate::outbox::Outbox;
use crate::plan::Plan;
use crate::seat::Seat;

/// Clears the outbox of an agent where its action ends.
fn clear(ends: bool, outbox: &mut Outbox)
    ensures { outbox.new ≡ (if ends then record outbox.old { sends = [] } else outbox.old) }
{
    if ends {
        outbox.clear();
    }
}

/// Clears the outboxes of the agents whose actions end at a date, which are among those that move there.
pub fn clear_outboxes(date: u64, seats: &[Seat], movers: &[u32], outboxes: &mut [Outbox])
    requires known { All (λ agent. agent < length outboxes.old) movers.now }
    requires movers { NamesAll (ends_in date seats.now) (length outboxes.old) 0 movers.now }
    ensures { (agent : ℕ) (outbox : Outboxed) → slice_get outboxes.old agent ≡ Some outbox
        → slice_get outboxes.new agent ≡ Some (if ends_at date (slice_get seats.now agent) then record outbox { sends = [] } else outbox) }
{
    'movers: for place in 0..movers.len() {
        let agent = movers[place] as usize;
        clear(ends_there(date, seats, agent), &mut outboxes[agent]);
    }
}

/// Sets to 0 how many messages were taken from each stream whose receiver's action ends at a date.
fn clear_ended(plan: &Plan, date: u64, seats: &[Seat], taken: &mut [u32])
    requires { length taken.old ≡ length plan.now.unit.streams }
    ensures { (stream n : ℕ) → slice_get taken.old stream ≡ Some n
        → slice_get taken.new stream ≡ Some (if ends_at date (slice_get seats.now (stream_at plan.now.unit stream).receiver) then 0 else n) }
{
    'streams: for stream in 0..taken.len() {
        let receiver = plan.unit.streams.as_slice()[stream].receiver as usize;
        if ends_there(date, seats, receiver) {
            taken[stream] = 0;
        }
    }
}

/// The same, by the agents that move at the date: where nobody does there is nothing to do.
pub fn clear_takes(plan: &Plan, date: u64, seats: &[Seat], movers: &[u32], taken: &mut [u32])
    requires taking { length taken.old ≡ length plan.now.unit.streams }
    requires seated { length seats.now ≡ length plan.now.unit.agents }
    requires movers { NamesAll (ends_in date seats.now) (length seats.now) 0 movers.now }
    ensures { (stream n : ℕ) → slice_get taken.old stream ≡ Some n
        → slice_get taken.new stream ≡ Some (if ends_at date (slice_get seats.now (stream_at plan.now.unit stream).receiver) then 0 else n) }
{
    if !movers.is_empty() {
        clear_ended(plan, date, seats, taken);
    }
}
