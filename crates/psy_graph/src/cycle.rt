//! The cycle of an agent.

ghost use Rattle.std.specs.Prelude.{◌≡◌, ◌≤◌};
ghost use Rattle.std.specs.Int.{IsGcd};
ghost use Rattle.psy_clock.specs.declared.clock.TheConstants.{PERIOD};
ghost use Rattle.psy_graph.specs.declared.cycle.TheConstants.{FAR};
ghost use Rattle.psy_graph.specs.Graphs.{IsTimed};
ghost use Rattle.psy_graph.specs.Steps.{timing_by, joined, IsModulus};

use crate::times::Times;

/// No date that the graph of an agent is made from lies behind this one.
pub const FAR: u64 = 8_589_934_592;

/// The greatest common divisor of two numbers (Euclid); that of 0 and a number is this number.
pub fn common_divisor(a: u64, b: u64) -> u64
    ensures { IsGcd a b result }
{
    let mut x = a;
    let mut y = b;
    'steps: while y != 0 {
        (x, y) = (y, x % y);
    }
    x
}

/// The least common multiple of two numbers.
fn common_multiple(a: u64, b: u32) -> u64
    requires far { a ≤ FAR }
    requires period { b ≤ PERIOD }
    requires some { (1 ≤ a) × (1 ≤ b) }
    ensures { result ≡ joined a b }
{
    let period = u64::from(b);
    a / common_divisor(a, period) * period
}

/// What stands for the cycle of an agent, the least common multiple of the periods of the clocks that its `advance`s name:
/// the cycle itself, or where it passes each date that is needed a number that does so too.
pub fn modulus(times: &Times) -> u64
    requires { IsTimed (timing_by times.now) }
    ensures { IsModulus (timing_by times.now) result }
{
    let mut multiple = 1u64;
    'points: for point in 1..times.points.len() {
        multiple = common_multiple(multiple, times.clock(point as u32).period);
        if multiple > FAR {
            return FAR + 1;
        }
    }
    multiple
}
