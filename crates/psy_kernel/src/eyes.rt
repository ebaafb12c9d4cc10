//! What an action sees of the variables and the streams, and where its messages go.

ghost use Rattle.std.specs.Prelude.{◌≡◌, ◌<◌, ◌≤◌, ◌^◌, [], IsSome, Some, ℕ, length, slice_get};
ghost use Rattle.std.specs.List.{All};
ghost use Rattle.psy_clock.specs.Dates.{IsClock};
ghost use Rattle.psy_code.specs.Views.{past_of};
ghost use Rattle.psy_meaning.specs.RingSizes.{dates_between};
ghost use Rattle.psy_queue.specs.Order.{Queued, message_values};
ghost use Rattle.psy_kernel.specs.Seeing.{CanSee, Sight, clock_in, seen_by, sight_in, view_in};

use psy_clock::Clock;
use psy_code::{Look, Sent};
use psy_dates::Outbox;
use psy_queue::Queue;
use psy_ring::Ring;
use psy_tree::{StreamDecl, Unit, VarDecl};
use std::marker::Model;

/// What an agent's action that started at one date looks at, at another, while others publish and send on: a value is found as many places
/// further back in the variable's ring as dates of it have passed since the start, and the messages that were visible at the start stand
/// in front of their queue.
#[derive(Drop)]
pub struct Scene<'a> {
    rings: &'a [Ring],
    variables: &'a [VarDecl],
    clocks: &'a [Clock],
    queues: &'a [Queue],
    streams: &'a [StreamDecl],
    agent: u32,
    /// The start date of the action, and the date done last.
    start: u64,
    date: u64,
}

impl<'a> Model for Scene<'a> {
    ghost use Rattle.psy_kernel.specs.Seeing.{CanSee, Sight};

    ghost Value = { Sight };

    ghost view = { λ scene. record {
      rings = scene.rings.now;
      variables = scene.variables.now;
      clocks = scene.clocks.now;
      queues = scene.queues.now;
      streams = scene.streams.now;
      agent = scene.agent;
      start = scene.start;
      date = scene.date;
    } };

    ghost invariant = { λ scene. CanSee scene.rings.now scene.clocks.now scene.start scene.date };
}

/// The clock of a number: that of all ticks where there is none.
pub fn clock_in(clocks: &[Clock], clock: u32) -> Clock
    requires lawful { All IsClock clocks.now }
    ensures clock { result ≡ clock_in clocks.now clock }
    ensures lawful { IsClock result }
{
    match clocks.get(clock as usize) {
        Some(found) => *found,
        None => Clock::base(),
    }
}

/// How many dates of a clock stand behind one date and up to another.
pub fn dates_between(clock: Clock, behind: u64, upto: u64) -> u64
    requires clock { IsClock clock }
    requires early { (behind ≤ 2 ^ 40) × (upto ≤ 2 ^ 40) }
    ensures { result ≡ dates_between clock behind upto }
{
    if behind == upto {
        return 0;
    }
    clock.count_to(upto).saturating_sub(clock.count_to(behind))
}

impl<'a> Scene<'a> {
    /// What the action of a program's agent that started at a date looks at, at another one.
    pub fn new(
        unit: &'a Unit,
        rings: &'a [Ring],
        queues: &'a [Queue],
        agent: u32,
        start: u64,
        date: u64,
    ) -> Scene<'a>
        requires { CanSee rings.now unit.now.clocks start date }
        ensures { result ≡ sight_in unit.now rings.now queues.now agent start date }
    {
        Scene {
            rings,
            variables: unit.variables.as_slice(),
            clocks: unit.clocks.as_slice(),
            queues,
            streams: unit.streams.as_slice(),
            agent,
            start,
            date,
        }
    }

    /// The value that the variable published `back` of its dates before the start.
    pub fn past(&self, variable: u32, back: u32) -> i32
        requires { IsSome (past_of (view_in self.now.rings self.now.variables self.now.clocks self.now.start self.now.date []) variable back) }
        ensures { past_of (view_in self.now.rings self.now.variables self.now.clocks self.now.start self.now.date []) variable back ≡ Some result }
    {
        let number = variable as usize;
        let clock = clock_in(self.clocks, self.variables[number].clock);
        let passed = dates_between(clock, self.start, self.date);
        self.rings[number].look(back + passed as u32)
    }

    /// How many messages of a stream were visible at the start.
    fn seen(&self, stream: u32) -> u32
        requires { stream < length self.now.queues }
        ensures { (queue : Queued) → slice_get self.now.queues stream ≡ Some queue → result ≡ seen_by queue.messages self.now.start }
    {
        self.queues[stream as usize].seen(self.start)
    }

    /// The value of a message of a stream, by its place.
    fn value(&self, stream: u32, place: u32) -> i32
        requires { (queue : Queued) × (slice_get self.now.queues stream ≡ Some queue) × (place < length queue.messages) }
        ensures { (queue : Queued) → slice_get self.now.queues stream ≡ Some queue → slice_get (message_values queue.messages) place ≡ Some result }
    {
        self.queues[stream as usize].value(place)
    }
}

/// What serves the calls of an action.
#[derive(Drop)]
pub struct Eyes<'a> {
    pub scene: &'a Scene<'a>,
    /// By stream, how many of its messages the receiver's action took so far.
    pub taken: &'a mut Vec<u32>,
    /// What the action sent so far.
    pub outbox: &'a mut Outbox,
    /// The variable and the `back` of the look made last.
    pub noted: Option<(u32, u32)>,
}

impl<'a> Look for Eyes<'a> {
    ghost use Rattle.std.proofs.Common.{inl, refl};
    ghost use Rattle.psy_kernel.specs.Looking.{KeepsRest, window_of};

    ghost window = { window_of };

    ghost Keeps = { KeepsRest };

    ghost keeps = { λ eyes. record {
      same_taken = refl;
      same_outbox = refl;
      scene = refl;
      size = refl;
      count = refl;
      others = λ stream other. refl;
      within = λ stream n queue there at. inl at;
    } };

    fn past(&mut self, variable: u32, back: u32) -> i32 {
        self.noted = Some((variable, back));
        self.scene.past(variable, back)
    }

    fn ready(&self, stream: u32) -> u32 {
        self.scene
            .seen(stream)
            .saturating_sub(self.taken[stream as usize])
    }

    fn take(&mut self, stream: u32) -> Option<i32> {
        let number = stream as usize;
        let place = self.taken[number];
        if place >= self.scene.seen(stream) {
            return None;
        }
        self.taken[number] = place + 1;
        Some(self.scene.value(stream, place))
    }

    fn send(&mut self, stream: u32, value: i32, after: u32, clock: u32) {
        self.outbox.send(Sent {
            stream,
            value,
            after,
            clock,
        });
    }
}
