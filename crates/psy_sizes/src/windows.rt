//! How many dates of a clock stand between the start and the deadline of an action, at most.

ghost use Rattle.std.specs.Prelude.{ℕ, ◌≤◌, ◌<◌};
ghost use Rattle.std.specs.Int.{IsGcd};
ghost use Rattle.psy_clock.specs.Dates.{IsClock};
ghost use Rattle.psy_base.specs.Extremes.{IsGreatest};
ghost use Rattle.psy_sizes.specs.Windows.{HasDates};

use psy_clock::Clock;
use psy_clock::laws::dates;

/// The most dates of a clock that stand behind a date in a phase of a cycle and before the date so many ticks later, where
/// this is what the clock's period shares with the cycle: its dates lie at all distances of one remainder by it.
pub fn most_between(clock: Clock, shared: u32, phase: u64, due: u64) -> u64
    requires clock { IsClock clock }
    requires shared { 1 ≤ shared }
    ensures { (cycle : ℕ) → IsGcd cycle clock.period shared → phase < cycle → IsGreatest (HasDates clock cycle phase due) result }
{
    dates();
    let period = u64::from(clock.period);
    let shared = u64::from(shared);
    let nearest = shared - (phase % shared + period - u64::from(clock.first)) % shared;
    if due <= nearest {
        return 0;
    }
    (due - 1 - nearest) / period + 1
}
