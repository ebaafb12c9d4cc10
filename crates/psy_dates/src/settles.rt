//! What a date takes away from the queues of streams.

ghost use Rattle.std.specs.Prelude.{◌≡◌, ℕ, ◌<◌, ◌≤◌, false, length, get_or, true, Some, slice_get};
ghost use Rattle.psy_queue.specs.Order.{Queued};
ghost use Rattle.psy_tree.specs.declared.unit.Unit.{Unit as Whole};
ghost use Rattle.psy_tree.specs.Parts.{stream_at};
ghost use Rattle.psy_meaning.specs.Timing.{first_date};
ghost use Rattle.psy_meaning.specs.Units.{IsBare};
ghost use Rattle.psy_dates.specs.Messages.{gone_by, nowhere, settled_then, sweeps_by};
ghost use Rattle.psy_dates.specs.Movers.{NamesAll, NoneStopped, moves_in};
ghost use Rattle.psy_dates.specs.Moves.{ends_at, timing_in};

use crate::due::first_of;
use crate::plan::Plan;
use crate::seat::{Phase, Seat};
use psy_queue::Queue;

/// A receiver's streams are rid of what has expired at a date: where its next action starts there, or where it is silent.
fn sweeps(plan: &Plan, agent: usize, date: u64, seat: Seat) -> bool
    requires bare { IsBare plan.now.unit }
    requires agent { agent < length plan.now.unit.agents }
    ensures { result ≡ sweeps_by date (first_date (timing_in plan.now agent)) seat seat.phase }
{
    match seat.phase {
        Phase::Waiting => first_of(plan, agent) == date,
        Phase::Acting => false,
        Phase::Ended => seat.end == date,
        Phase::Stopped => seat.deadline <= date,
        Phase::Silent => true,
    }
}

/// How many of the messages that a receiver took go: those of an action that it has ended.
fn gone(phase: Phase, taken: u32) -> u32
    ensures { result ≡ gone_by taken phase }
{
    match phase {
        Phase::Ended => taken,
        _ => 0,
    }
}

/// What the receiver of this seat took goes from a queue where its action ends at a date, and what has expired where the receiver starts
/// there or is silent.
fn settle(plan: &Plan, agent: usize, date: u64, seat: Seat, taken: u32, queue: &mut Queue)
    requires bare { IsBare plan.now.unit }
    requires agent { agent < length plan.now.unit.agents }
    requires held { ends_at date (Some seat) ≡ true → taken ≤ length queue.old.messages }
    ensures { queue.new ≡ settled_then date (first_date (timing_in plan.now agent)) seat taken queue.old }
{
    if sweeps(plan, agent, date, seat) {
        queue.settle(date, gone(seat.phase, taken));
    }
}

/// Rids the queue of each stream of what its receiver took, where that action ends at a date, and then of what has expired, where the
/// receiver starts there or is silent.
fn settle_each(plan: &Plan, date: u64, seats: &[Seat], taken: &[u32], queues: &mut [Queue])
    requires bare { IsBare plan.now.unit }
    requires seated { length seats.now ≡ length plan.now.unit.agents }
    requires taking { length taken.now ≡ length plan.now.unit.streams }
    requires queued { length queues.old ≡ length plan.now.unit.streams }
    requires held { (stream : ℕ) (queue : Queued) → slice_get queues.old stream ≡ Some queue
        → ends_at date (slice_get seats.now (stream_at plan.now.unit stream).receiver) ≡ true → get_or taken.now stream 0 ≤ length queue.messages }
    ensures { (stream : ℕ) (queue : Queued) → slice_get queues.old stream ≡ Some queue
        → slice_get queues.new stream ≡ Some (settled_then date (first_date (timing_in plan.now (stream_at plan.now.unit stream).receiver))
        (get_or seats.now (stream_at plan.now.unit stream).receiver nowhere) (get_or taken.now stream 0) queue) }
{
    'streams: for stream in 0..queues.len() {
        let receiver = plan.unit.streams.as_slice()[stream].receiver as usize;
        settle(
            plan,
            receiver,
            date,
            seats[receiver],
            taken[stream],
            &mut queues[stream],
        );
    }
}

/// The same, by the agents that move at the date and by whether an agent was stopped: where nobody moves and none was there is nothing to do.
pub fn settle_all(
    plan: &Plan,
    date: u64,
    seats: &[Seat],
    movers: &[u32],
    stopped: bool,
    taken: &[u32],
    queues: &mut [Queue],
)
    requires bare { IsBare plan.now.unit }
    requires seated { length seats.now ≡ length plan.now.unit.agents }
    requires taking { length taken.now ≡ length plan.now.unit.streams }
    requires queued { length queues.old ≡ length plan.now.unit.streams }
    requires held { (stream : ℕ) (queue : Queued) → slice_get queues.old stream ≡ Some queue
        → ends_at date (slice_get seats.now (stream_at plan.now.unit stream).receiver) ≡ true → get_or taken.now stream 0 ≤ length queue.messages }
    requires movers { NamesAll (moves_in plan.now date seats.now) (length seats.now) 0 movers.now }
    requires stopped { stopped ≡ false → NoneStopped seats.now }
    ensures { (stream : ℕ) (queue : Queued) → slice_get queues.old stream ≡ Some queue
        → slice_get queues.new stream ≡ Some (settled_then date (first_date (timing_in plan.now (stream_at plan.now.unit stream).receiver))
        (get_or seats.now (stream_at plan.now.unit stream).receiver nowhere) (get_or taken.now stream 0) queue) }
{
    if stopped || !movers.is_empty() {
        settle_each(plan, date, seats, taken, queues);
    }
}
