//! What an action sees, and what it sends.
ghost use Rattle.std.specs.Prelude.{◌≡◌, Some};
ghost use Rattle.psy_code.specs.Views.{Window, Permits, Past, Ready, Take, Send, answered, past_of, count_in, next_in};

/// What an agent sends: the message enters at the end date of the sender's action, and is visible from
/// the date of the clock on that is number `after` from there, counted from 0.
#[derive(Clone, Copy, Debug, PartialEq, Eq)]
pub struct Sent {
    pub stream: u32,
    pub value: i32,
    pub after: u32,
    pub clock: u32,
}

/// What an action sees, and where its messages go: all that a machine asks of the world.
pub trait Look {
    // what it serves, the sends that it took, and the look that it noted last
    ghost window: { Self → Window };

    // how it may change at a call, whatever that asks: what else it holds stays as it was
    ghost Keeps: { Self → Self → Type 0 };

    ghost keeps: { (s : Self) → Keeps s s };

    /// The value that the variable published `back` of its dates ago. The look is noted.
    fn past(&mut self, variable: u32, back: u32) -> i32
        requires { Permits (window self.old) (Past variable back) }
        ensures value { past_of (window self.old).view variable back ≡ Some result }
        ensures rest { window self.new ≡ answered (window self.old) (Past variable back) }
        ensures kept { Keeps self.old self.new };

    /// How many messages of the stream aren't yet taken.
    fn ready(&self, stream: u32) -> u32
        requires { Permits (window self.now) (Ready stream) }
        ensures { count_in (window self.now).view stream ≡ Some result };

    /// Takes the first message of the stream that isn't yet taken; `None` exactly where there is none.
    fn take(&mut self, stream: u32) -> Option<i32>
        requires { Permits (window self.old) (Take stream) }
        ensures value { result ≡ next_in (window self.old).view stream }
        ensures rest { window self.new ≡ answered (window self.old) (Take stream) }
        ensures kept { Keeps self.old self.new };

    /// Sends a value to a stream.
    fn send(&mut self, stream: u32, value: i32, after: u32, clock: u32)
        requires { Permits (window self.old) (Send (record { stream = stream; value = value; after = after; clock = clock })) }
        ensures rest { window self.new ≡ answered (window self.old) (Send (record { stream = stream; value = value; after = after; clock = clock })) }
        ensures kept { Keeps self.old self.new };
}
