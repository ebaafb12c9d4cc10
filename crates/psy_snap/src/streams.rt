//! The streams and their messages.
ghost use Rattle.std.specs.Prelude.{◌≡◌, ◌<◌, ◌≤◌, [], length, not};
ghost use Rattle.psy_snap.specs.Cuts.{message_asks};
ghost use Rattle.psy_snap.specs.Faults.{rises};
ghost use Rattle.psy_snap.specs.Forms.{form_of, stream_form};
ghost use Rattle.psy_snap.specs.Plans.{IsReadable};
ghost use Rattle.psy_snap.specs.Reading.{Gives, begun_in, comes_after, each_at, held_at, is_below, is_misheld, is_up_to, keys_at, keys_of};
ghost use Rattle.psy_snap.specs.Reading.{last_of, message_at, messages_at, rises_by, stream_at, visible_at};

use crate::fault::ReadError;
use crate::fields::{any, long_below, one_of, up_to};
use crate::limits::FAR;
use crate::numbers::{long_at, short_at};
use psy_base::limits::QUEUE;
use psy_base::{Items, Message};
use psy_dates::{AgentOpening, Plan, StreamOpening};
use std::alloc::Global;

/// Both numbers are there, and the first is below the second.
fn is_below(first: Option<u64>, second: Option<u64>) -> bool
    ensures { result ≡ is_below first second }
{
    match first {
        None => false,
        Some(first) => match second {
            None => false,
            Some(second) => first < second,
        },
    }
}

/// Both numbers are there, and the first is at most the second.
fn is_up_to(first: Option<u64>, second: Option<u64>) -> bool
    ensures { result ≡ is_up_to first second }
{
    match first {
        None => false,
        Some(first) => match second {
            None => false,
            Some(second) => first <= second,
        },
    }
}

/// A number isn't there, or is above one, or is the same and what follows is in order.
fn rises(one: u64, number: Option<u64>, behind: bool) -> bool
    ensures { result ≡ rises_by one number behind }
{
    match number {
        None => true,
        Some(number) => one < number || (one == number && behind),
    }
}

fn wide(number: Option<u32>) -> Option<u64>
    ensures { result ≡ number }
{
    match number {
        None => None,
        Some(number) => Some(u64::from(number)),
    }
}

/// The message at the front of the bytes, as far as it is there, is behind another.
fn is_behind(before: &Message, bytes: &[u8]) -> bool
    ensures { result ≡ rises (keys_of before.now) (keys_at bytes.now) }
{
    let by_number = rises(u64::from(before.number), wide(short_at(bytes, 20)), false);
    let by_sender = rises(
        u64::from(before.sender),
        wide(short_at(bytes, 16)),
        by_number,
    );
    let by_entry = rises(before.entry, long_at(bytes, 8), by_sender);
    rises(before.visible, long_at(bytes, 0), by_entry)
}

/// Whether there is one before, and the message isn't behind it.
fn is_early(before: Option<Message>, bytes: &[u8]) -> bool
    ensures { result ≡ not (comes_after before bytes.now) }
{
    match before {
        None => false,
        Some(before) => !is_behind(&before, bytes),
    }
}

/// The message can't be held at the date.
fn is_misheld(date: u32, begun: bool, before: Option<Message>, bytes: &[u8]) -> bool
    ensures { result ≡ is_misheld date begun before bytes.now }
{
    let date = Some(u64::from(date));
    let visible = long_at(bytes, 0);
    let entry = long_at(bytes, 8);
    let expiry = long_at(bytes, 24);
    is_early(before, bytes)
        || is_below(date, entry)
        || is_below(visible, entry)
        || is_up_to(expiry, visible)
        || (begun && is_up_to(expiry, date))
}

/// The last of some messages.
#[tactic(auto, unfolding(crate::specs::Reading::last_of))]
fn last_of(messages: &Items<Message>) -> Option<Message>
    ensures { result ≡ last_of messages.now }
{
    let messages = messages.as_slice();
    if messages.is_empty() {
        return None;
    }
    Some(messages[messages.len() - 1])
}

#[tactic(auto, unfolding(crate::specs::Reading::visible_at))]
fn visible<'a>(
    date: u32,
    begun: bool,
    before: Option<Message>,
    bytes: &'a [u8],
) -> Result<(u64, &'a [u8]), ReadError>
    ensures { Gives (λ x. (x.0, x.1.now)) result (visible_at date begun before bytes.now) }
{
    let (visible, rest) = long_below(FAR, bytes)?;
    if is_misheld(date, begun, before, bytes) {
        return Err(ReadError::Bad {
            number: 3,
            left: bytes.len(),
        });
    }
    Ok((visible, rest))
}

#[tactic(auto, unfolding(crate::specs::Reading::message_at))]
fn message<'a>(
    agents: u32,
    date: u32,
    begun: bool,
    messages: &mut Items<Message>,
    bytes: &'a [u8],
) -> Result<&'a [u8], ReadError>
    ensures { Gives (λ rest. (messages.new, rest.now)) result (message_at agents date begun (message_asks agents) messages.old bytes.now) }
{
    let (visible, rest) = visible(date, begun, last_of(messages), bytes)?;
    let (entry, rest) = long_below(FAR, rest)?;
    let (sender, rest) = one_of(agents, rest)?;
    let (number, rest) = any(rest)?;
    let (expiry, rest) = long_below(FAR, rest)?;
    let (value, rest) = any(rest)?;
    messages.push(Message {
        visible,
        entry,
        sender,
        number,
        expiry,
        value: value.cast_signed(),
    })?;
    Ok(rest)
}

/// So many messages.
fn messages<'a>(
    alloc: Global,
    agents: u32,
    date: u32,
    begun: bool,
    count: u32,
    bytes: &'a [u8],
) -> Result<(Items<Message>, &'a [u8]), ReadError>
    ensures { Gives (λ x. (x.0, x.1.now)) result (messages_at agents date begun count bytes.now) }
{
    let mut rest = bytes;
    let mut messages = Items::new(alloc);
    'messages: for _ in 0..count {
        rest = message(agents, date, begun, &mut messages, rest)?;
    }
    Ok((messages, rest))
}

fn has_begun(agents: &[AgentOpening], agent: u32) -> bool
    requires { agent < length agents.now }
    ensures { result ≡ begun_in agents.now agent }
{
    agents[agent as usize].begun.is_some()
}

/// The greatest number held, and how many there are.
fn held(size: u32, bytes: &[u8]) -> Result<(u32, u32, &[u8]), ReadError>
    ensures { Gives (λ x. ((x.0, x.1), x.2.now)) result (held_at size bytes.now) }
{
    let (held, rest) = up_to(size, bytes)?;
    let (count, rest) = up_to(QUEUE, rest)?;
    Ok((held, count, rest))
}

#[tactic(auto, unfolding(crate::specs::Reading::stream_at, crate::specs::Forms::stream_form))]
fn stream<'a>(
    alloc: Global,
    plan: &Plan,
    date: u32,
    agents: &[AgentOpening],
    number: usize,
    streams: &mut Items<StreamOpening>,
    bytes: &'a [u8],
) -> Result<&'a [u8], ReadError>
    requires plan { IsReadable plan.now }
    requires number { number < length plan.now.unit.streams }
    requires agents { length agents.now ≡ length plan.now.unit.agents }
    ensures { Gives (λ rest. (streams.new, rest.now)) result (stream_at date agents.now (stream_form plan.now number) streams.old bytes.now) }
{
    let begun = has_begun(agents, plan.unit.streams.as_slice()[number].receiver);
    let (held, count, rest) = held(plan.sizes.queues.as_slice()[number], bytes)?;
    let (messages, rest) = messages(alloc, agents.len() as u32, date, begun, count, rest)?;
    streams.push(StreamOpening { held, messages })?;
    Ok(rest)
}

/// The streams.
pub fn streams<'a>(
    alloc: Global,
    plan: &Plan,
    date: u32,
    agents: &[AgentOpening],
    bytes: &'a [u8],
) -> Result<(Items<StreamOpening>, &'a [u8]), ReadError>
    requires plan { IsReadable plan.now }
    requires agents { length agents.now ≡ length plan.now.unit.agents }
    ensures { Gives (λ x. (x.0, x.1.now)) result (each_at (stream_at date agents.now) (form_of plan.now []).streams [] bytes.now) }
{
    let mut rest = bytes;
    let mut streams = Items::new(alloc);
    'streams: for number in 0..plan.unit.streams.len() {
        rest = stream(alloc, plan, date, agents, number, &mut streams, rest)?;
    }
    Ok((streams, rest))
}
