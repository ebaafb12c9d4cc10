//! What the period of a clock shares with the cycle of an agent.

ghost use Rattle.std.specs.Prelude.{ℕ, ◌≤◌, ◌<◌, length};
ghost use Rattle.std.specs.Int.{IsGcd};
ghost use Rattle.std.specs.List.{All};
ghost use Rattle.psy_clock.specs.Dates.{IsClock};
ghost use Rattle.psy_meaning.specs.Graph.{IsCycle};
ghost use Rattle.psy_clock.specs.declared.clock.TheConstants.{PERIOD};
ghost use Rattle.psy_sizes.specs.Windows.{timing_by};

use psy_clock::Clock;
use psy_graph::common_divisor;
use psy_tree::Point;

/// The greatest common divisor of a period and of the cycle of an agent with these points. The cycle itself may have many more
/// digits than 64 bits; each period that makes it shares something with the period that is given, and the least common
/// multiple of these is what the cycle shares with it.
pub fn shared_divisor(clocks: &[Clock], points: &[Point], period: u32) -> u32
    requires clocks { All IsClock clocks.now }
    requires named { All (λ point. point.clock < length clocks.now) points.now }
    requires some { 1 ≤ period }
    requires period { period ≤ PERIOD }
    ensures { (cycle : ℕ) → IsCycle (timing_by clocks.now points.now) cycle → (1 ≤ cycle) × IsGcd cycle period result }
{
    let mut shared = 1;
    'points: for point in 1..points.len() {
        let own = clocks[points[point].clock as usize].period;
        let common = common_divisor(u64::from(own), u64::from(period));
        shared = shared / common_divisor(shared, common) * common;
    }
    shared as u32
}
