//! What is counted on a way, and how far.

ghost use Rattle.std.specs.Prelude.{◌≡◌, ◌+◌, ◌*◌, ◌≤◌, min};
ghost use Rattle.psy_flow.specs.Tops.{limit_of, in_step, in_look, in_send};

use psy_base::limits;

/// What is counted on a way.
#[derive(Clone, Copy, Debug)]
pub enum Gauge {
    /// Its instructions, up to 1,000,000,000.
    Steps,
    /// Its sends to a stream, up to 65,537.
    Sends(u32),
    /// Its looks at a variable, up to 1.
    Looks(u32),
}

impl Gauge {
    /// How far is counted.
    pub fn limit(self) -> u64
        ensures { result ≡ limit_of self }
    {
        match self {
            Gauge::Steps => limits::COST,
            Gauge::Sends(_) => limits::SENDS,
            Gauge::Looks(_) => 1,
        }
    }

    /// What an instruction counts that neither looks nor sends.
    pub fn step(self) -> u64
        ensures { result ≡ in_step self }
    {
        match self {
            Gauge::Steps => 1,
            _ => 0,
        }
    }

    /// What a look at a variable counts.
    pub fn look(self, variable: u32) -> u64
        ensures { result ≡ in_look self variable }
    {
        match self {
            Gauge::Steps => 1,
            Gauge::Looks(counted) => u64::from(variable == counted),
            Gauge::Sends(_) => 0,
        }
    }

    /// What a send to a stream counts.
    pub fn send(self, stream: u32) -> u64
        ensures { result ≡ in_send self stream }
    {
        match self {
            Gauge::Steps => 1,
            Gauge::Sends(counted) => u64::from(stream == counted),
            Gauge::Looks(_) => 0,
        }
    }

    /// Two counts together, as far as is counted.
    pub fn sum(self, first: u64, second: u64) -> u64
        ensures { result ≡ min (first + second) (limit_of self) }
    {
        first.saturating_add(second).min(self.limit())
    }

    /// So many times a count, as far as is counted.
    pub fn times(self, turns: u32, count: u64) -> u64
        ensures { result ≡ min (turns * count) (limit_of self) }
    {
        u64::from(turns).saturating_mul(count).min(self.limit())
    }
}
