//! Clocks: an unending row of dates, each a period behind the one before it.
ghost use Rattle.std.specs.Prelude.{◌≡◌, ℕ, ◌+◌, ◌-◌, ◌*◌, ◌^◌, ◌<◌, ◌≤◌, ◌↔◌, IfOk};
ghost use Rattle.std.specs.Result.{IsErrOf};
ghost use Rattle.psy_clock.specs.Dates.{IsClock, IsDate, IsAfter, IsFrom, date, count, count_below, after_date, from_date, derived};

use thiserror::Error;

/// The most ticks of a clock's period.
pub const PERIOD: u32 = 10_000;

/// A clock. Its dates are `first`, `first + period`, `first + 2 * period` and so on, in ticks.
#[derive(Clone, Copy, Debug, PartialEq, Eq)]
pub struct Clock {
    /// Ticks from a date to the next, from 1 to 10,000.
    pub period: u32,
    /// The first date, which is below the period.
    pub first: u32,
}

/// Why no clock can be derived.
#[derive(Clone, Copy, Debug, PartialEq, Eq, Error)]
pub enum ClockFault {
    /// The shift isn't below the factor.
    #[error("the shift isn't below the factor")]
    BadShift,
    /// The period passes 10,000 ticks.
    #[error("the period passes 10,000 ticks")]
    TooSlow,
}

/// The clock whose activations are number `m`, `n + m`, `2 * n + m` and so on of the parent's.
pub fn derive(parent: Clock, n: u32, m: u32) -> Result<Clock, ClockFault>
    requires { IsClock parent }
    ensures clock { IfOk result (λ c. c ≡ derived parent n m) }
    ensures lawful { IfOk result IsClock }
    ensures dates { IfOk result (λ c. (i : ℕ) → date c i ≡ date parent (n * i + m)) }
    ensures shift { IsErrOf result ClockFault.BadShift ↔ n ≤ m }
    ensures slow { IsErrOf result ClockFault.TooSlow ↔ ((m < n) × (PERIOD < n * parent.period)) }
{
    if m >= n {
        return Err(ClockFault::BadShift);
    }
    let period = u64::from(n) * u64::from(parent.period);
    if period > u64::from(PERIOD) {
        return Err(ClockFault::TooSlow);
    }
    Ok(Clock {
        period: n * parent.period,
        first: parent.first + m * parent.period,
    })
}

impl Clock {
    /// The clock whose dates are all numbers.
    pub fn base() -> Clock
        ensures clock { result ≡ record { period = 1; first = 0 } }
        ensures lawful { IsClock result }
    {
        Clock {
            period: 1,
            first: 0,
        }
    }

    /// The `k`-th date above `t`.
    pub fn after(self, t: u64, k: u32) -> u64
        requires clock { IsClock self }
        requires some { 1 ≤ k }
        requires early { t ≤ 2 ^ 40 }
        ensures after { IsAfter self t k result }
        ensures value { result ≡ after_date self t k }
    {
        self.at(self.count_to(t) + u64::from(k - 1))
    }

    /// The `k`-th date at or above `t`, counted from 0.
    pub fn from_date(self, t: u64, k: u32) -> u64
        requires clock { IsClock self }
        requires early { t ≤ 2 ^ 40 }
        ensures from { IsFrom self t k result }
        ensures value { result ≡ from_date self t k }
    {
        self.at(self.count_before(t) + u64::from(k))
    }

    /// The number of dates at or below `t`.
    pub fn count_to(self, t: u64) -> u64
        requires clock { IsClock self }
        requires early { t ≤ 2 ^ 40 }
        ensures { result ≡ count self t }
    {
        let first = u64::from(self.first);
        if t < first {
            return 0;
        }
        (t - first) / u64::from(self.period) + 1
    }

    /// The number of dates below `t`.
    fn count_before(self, t: u64) -> u64
        requires clock { IsClock self }
        requires early { t ≤ 2 ^ 40 }
        ensures { result ≡ count_below self t }
    {
        if t == 0 { 0 } else { self.count_to(t - 1) }
    }

    /// Date number `i`, from 0.
    fn at(self, i: u64) -> u64
        requires clock { IsClock self }
        requires few { i ≤ 2 ^ 42 }
        ensures { result ≡ date self i }
    {
        u64::from(self.first) + i * u64::from(self.period)
    }
}
