//! What a date adds to the queues of streams.

ghost use Rattle.std.specs.Prelude.{◌≡◌, ℕ, ◌^◌, ◌<◌, ◌≤◌, [], if◌then◌else◌, length, true, slice_get};
ghost use Rattle.std.specs.List.{All};
ghost use Rattle.psy_meaning.specs.Kept.{IsSentOf};
ghost use Rattle.psy_meaning.specs.Units.{IsBare};
ghost use Rattle.psy_history.specs.Visible.{message_of as the_message, messages_from};
ghost use Rattle.psy_dates.specs.Messages.{HaveEntered, HaveRoom, sends_of, sent_from};
ghost use Rattle.psy_dates.specs.Movers.{NamesAll, ends_in};
ghost use Rattle.psy_dates.specs.Moves.{ends_at};
ghost use Rattle.psy_dates.specs.Plans.{system_of};

use crate::commits::ends_there;
use crate::due::clock_of;
use crate::outbox::Outbox;
use crate::plan::Plan;
use crate::seat::Seat;
use psy_base::Message;
use psy_clock::laws::distances;
use psy_code::Sent;
use psy_queue::Queue;

/// The message of a send of an agent's action that ended at a date, by its number among the sends of that action.
fn message_of(plan: &Plan, agent: u32, end: u64, number: u32, sent: Sent) -> Message
    requires bare { IsBare plan.now.unit }
    requires sent { IsSentOf plan.now.unit sent }
    requires early { end ≤ 2 ^ 39 }
    ensures { result ≡ the_message (system_of plan.now [] (λ agent. [])) agent end number sent }
{
    distances();
    let stream = &plan.unit.streams.as_slice()[sent.stream as usize];
    let visible = clock_of(plan, sent.clock).from_date(end, sent.after);
    Message {
        visible,
        entry: end,
        sender: agent,
        number,
        expiry: clock_of(plan, stream.clock).after(visible, stream.keep),
        value: sent.value,
    }
}

/// The messages of an agent's action that ended at a date enter the queues of their streams.
fn enter_sends(plan: &Plan, agent: u32, end: u64, sends: &[Sent], queues: &mut [Queue])
    requires bare { IsBare plan.now.unit }
    requires sent { All (IsSentOf plan.now.unit) sends.now }
    requires early { end ≤ 2 ^ 39 }
    requires few { length sends.now < 2 ^ 32 }
    requires queued { length queues.old ≡ length plan.now.unit.streams }
    requires room { HaveRoom (λ stream. messages_from (system_of plan.now [] (λ agent. [])) stream agent end 0 sends.now) queues.old }
    ensures { HaveEntered (λ stream. messages_from (system_of plan.now [] (λ agent. [])) stream agent end 0 sends.now) queues.old queues.new }
{
    'sends: for number in 0..sends.len() {
        let sent = sends[number];
        queues[sent.stream as usize].enter(message_of(plan, agent, end, number as u32, sent));
    }
}

/// The same where that action ends there; else nothing enters.
fn enter_where(plan: &Plan, ends: bool, agent: u32, end: u64, sends: &[Sent], queues: &mut [Queue])
    requires bare { IsBare plan.now.unit }
    requires sent { ends ≡ true → All (IsSentOf plan.now.unit) sends.now }
    requires early { end ≤ 2 ^ 39 }
    requires few { length sends.now < 2 ^ 32 }
    requires queued { length queues.old ≡ length plan.now.unit.streams }
    requires room { HaveRoom (λ stream. if ends then messages_from (system_of plan.now [] (λ agent. [])) stream agent end 0 sends.now else []) queues.old }
    ensures { HaveEntered (λ stream. if ends then messages_from (system_of plan.now [] (λ agent. [])) stream agent end 0 sends.now
        else []) queues.old queues.new }
{
    if ends {
        enter_sends(plan, agent, end, sends, queues);
    }
}

/// The messages of the actions that end at a date enter the queues of their streams, agent by agent of those that move there.
pub fn enter_all(
    plan: &Plan,
    date: u64,
    seats: &[Seat],
    movers: &[u32],
    outboxes: &[Outbox],
    queues: &mut [Queue],
)
    requires bare { IsBare plan.now.unit }
    requires early { date ≤ 2 ^ 39 }
    requires boxed { length outboxes.now ≡ length plan.now.unit.agents }
    requires known { All (λ agent. agent < length outboxes.now) movers.now }
    requires movers { NamesAll (ends_in date seats.now) (length plan.now.unit.agents) 0 movers.now }
    requires sent { (agent : ℕ) → ends_at date (slice_get seats.now agent) ≡ true → All (IsSentOf plan.now.unit) (sends_of outboxes.now agent) }
    requires queued { length queues.old ≡ length plan.now.unit.streams }
    requires room { HaveRoom (sent_from (system_of plan.now [] (λ agent. [])) date seats.now outboxes.now 0 (length plan.now.unit.agents)) queues.old }
    ensures { HaveEntered (sent_from (system_of plan.now [] (λ agent. [])) date seats.now outboxes.now 0 (length plan.now.unit.agents)) queues.old queues.new }
{
    'movers: for place in 0..movers.len() {
        let agent = movers[place] as usize;
        let ends = ends_there(date, seats, agent);
        enter_where(
            plan,
            ends,
            agent as u32,
            date,
            outboxes[agent].sends(),
            queues,
        );
    }
}
