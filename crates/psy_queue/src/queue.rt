//! The messages of a stream, in order.
ghost use Rattle.std.specs.Prelude.{◌≡◌, ℕ, ◌+◌, ◌<◌, ◌≤◌, true, false, [], Some, IfOk, IsTrue, drop, filter, length, nat_le, nat_lt, slice_get, vec_capacity};
ghost use Rattle.std.specs.List.Sorted.{IsPartitionPoint};
ghost use Rattle.psy_base.specs.declared.message.Message.{Message};
ghost use Rattle.psy_queue.specs.Expiring.{ExpiryRises};
ghost use Rattle.psy_queue.specs.declared.room.TheConstants.{MOST_PLACES};
ghost use Rattle.psy_queue.specs.Order.{AreInOrder, comes_before, put_in_order, message_values};

use psy_base::{Memory, Message};
use std::alloc::Global;
use std::marker::Model;

/// The messages of a stream, in order. Contracts see its size, the number of messages that it has room for, and
/// the list of those that it holds.
#[derive(Drop)]
pub struct Queue {
    size: u32,
    messages: Vec<Message>,
    /// Whether it is known that they expire in their order, as those of a stream do.
    rising: bool,
}

impl Model for Queue {
    ghost use Rattle.psy_queue.specs.Order.{Queued};
    ghost use Rattle.psy_queue.specs.Standing.{IsQueue, queued};

    ghost Value = { Queued };

    ghost view = { queued };

    ghost invariant = { IsQueue };
}

/// Whether a message comes before another.
fn is_before(one: &Message, other: &Message) -> bool
    ensures { result ≡ comes_before one.now other.now }
{
    one.visible < other.visible
        || one.visible == other.visible
            && (one.entry < other.entry
                || one.entry == other.entry
                    && (one.sender < other.sender
                        || one.sender == other.sender && one.number < other.number))
}

/// How many messages stand before the place of a new one.
fn place_of(messages: &[Message], message: &Message) -> usize
    requires { AreInOrder messages.now }
    ensures point { IsPartitionPoint (λ n. comes_before message.now n ≡ false) (λ n. comes_before message.now n ≡ true) messages.now result }
    ensures within { result ≤ length messages.now }
{
    messages.partition_point(|other| !is_before(message, other))
}

/// How many messages are visible at a date or before it.
fn seen_in(messages: &[Message], start: u64) -> usize
    requires { AreInOrder messages.now }
    ensures number { result ≡ length (filter (λ (m : Message). nat_le m.visible start) messages.now) }
    ensures within { result ≤ length messages.now }
{
    messages.partition_point(|message| message.visible <= start)
}

/// Whether no message at a place expires behind a date.
fn none_behind(messages: &[Message], place: usize, expiry: u64) -> bool
    ensures { IsTrue result → (other : Message) → slice_get messages.now place ≡ Some other → other.expiry ≤ expiry }
{
    match messages.get(place) {
        Some(other) => other.expiry <= expiry,
        None => true,
    }
}

/// Whether no message at a place expires before a date.
fn none_before(messages: &[Message], place: usize, expiry: u64) -> bool
    ensures { IsTrue result → (other : Message) → slice_get messages.now place ≡ Some other → expiry ≤ other.expiry }
{
    match messages.get(place) {
        Some(other) => expiry <= other.expiry,
        None => true,
    }
}

/// Whether messages that are known to expire in their order are so with one more at a place, which expires at a date.
fn rises_with(rising: bool, messages: &[Message], place: usize, expiry: u64) -> bool
    ensures rising { IsTrue result → IsTrue rising }
    ensures before { IsTrue result → (i : ℕ) (other : Message) → i + 1 ≡ place → slice_get messages.now i ≡ Some other → other.expiry ≤ expiry }
    ensures behind { IsTrue result → (other : Message) → slice_get messages.now place ≡ Some other → expiry ≤ other.expiry }
{
    rising
        && none_before(messages, place, expiry)
        && (place == 0 || none_behind(messages, place - 1, expiry))
}

/// How many of the first messages have expired at a date, where they expire in their order.
fn expired(messages: &[Message], date: u64) -> usize
    requires { ExpiryRises messages.now }
    ensures rest { drop result messages.now ≡ filter (λ (m : Message). nat_lt date m.expiry) messages.now }
    ensures within { result ≤ length messages.now }
{
    messages.partition_point(|message| message.expiry <= date)
}

/// The first messages go.
fn drop_front(messages: &mut Vec<Message>, taken: usize)
    requires { taken ≤ length messages.old.items }
    ensures items { messages.new.items ≡ drop taken messages.old.items }
    ensures capacity { vec_capacity messages.new ≡ vec_capacity messages.old }
{
    if taken > 0 {
        drop(messages.drain(..taken));
    }
}

/// The messages that have expired go, in whatever order they do.
fn drop_each(messages: &mut Vec<Message>, date: u64)
    ensures items { messages.new.items ≡ filter (λ (m : Message). nat_lt date m.expiry) messages.old.items }
    ensures capacity { vec_capacity messages.new ≡ vec_capacity messages.old }
{
    messages.retain(|message| date < message.expiry);
}

/// The messages that have expired go: the first ones, where they are known to expire in their order.
fn drop_expired(messages: &mut Vec<Message>, date: u64, rising: bool)
    requires { IsTrue rising → ExpiryRises messages.old.items }
    ensures items { messages.new.items ≡ filter (λ (m : Message). nat_lt date m.expiry) messages.old.items }
    ensures capacity { vec_capacity messages.new ≡ vec_capacity messages.old }
{
    if rising {
        let gone = expired(messages.as_slice(), date);
        drop_front(messages, gone);
    } else {
        drop_each(messages, date);
    }
}

impl Queue {
    /// An empty queue of so many places, at most 131,072. The only error is want of memory; no other call takes any.
    pub fn new(alloc: Global, size: u32) -> Result<Queue, Memory>
        requires { size ≤ MOST_PLACES }
        ensures { IfOk result (λ queue. queue ≡ record { size = size; messages = [] }) }
    {
        Ok(Queue {
            size,
            messages: Vec::with_capacity(alloc, size as usize)?,
            rising: true,
        })
    }

    /// A message goes to its place.
    pub fn enter(&mut self, message: Message)
        requires { length self.old.messages < self.old.size }
        ensures { self.new ≡ record self.old { messages = put_in_order message self.old.messages } }
    {
        let place = place_of(self.messages.as_slice(), &message);
        self.rising = rises_with(self.rising, self.messages.as_slice(), place, message.expiry);
        // There is room, so this takes no memory.
        let _ = self.messages.insert(place, message);
    }

    /// At a date the first messages go, which were taken, and then all that have expired.
    pub fn settle(&mut self, date: u64, taken: u32)
        requires { taken ≤ length self.old.messages }
        ensures { self.new ≡ record self.old { messages = filter (λ (m : Message). nat_lt date m.expiry) (drop taken self.old.messages) } }
    {
        drop_front(&mut self.messages, taken as usize);
        drop_expired(&mut self.messages, date, self.rising);
    }

    /// How many messages are visible at this date or before it.
    pub fn seen(&self, start: u64) -> u32
        ensures { result ≡ length (filter (λ (m : Message). nat_le m.visible start) self.now.messages) }
    {
        seen_in(self.messages.as_slice(), start) as u32
    }

    /// The value of the message at a place, the first one standing at 0.
    pub fn value(&self, place: u32) -> i32
        requires { place < length self.now.messages }
        ensures { slice_get (message_values self.now.messages) place ≡ Some result }
    {
        self.messages[place as usize].value
    }

    /// The message at a place, the first one standing at 0.
    pub fn message(&self, place: u32) -> Message
        requires { place < length self.now.messages }
        ensures { slice_get self.now.messages place ≡ Some result }
    {
        self.messages[place as usize]
    }

    /// How many messages are held. They stand in order.
    pub fn held(&self) -> u32
        ensures number { result ≡ length self.now.messages }
        ensures within { result ≤ self.now.size }
        ensures order { AreInOrder self.now.messages }
    {
        self.messages.len() as u32
    }
}
