//! The length from which on the supply is above the lines of all agents.

ghost use Rattle.std.specs.Prelude.{◌≡◌, ℕ, ◌+◌, ◌*◌, ◌^◌, ◌<◌, ◌≤◌, All, MatchOption, length};
ghost use Rattle.psy_base.specs.declared.limits.TheConstants.{AGENTS};
ghost use Rattle.psy_rate.specs.Horizons.{Covers, IsHorizonOf, rate_of, intercept_of};

use crate::line::{Rate, SCALE};

/// The sum of the rates.
fn sum_of_rates(lines: &[Rate]) -> u64
    requires few { length lines.now ≤ AGENTS }
    requires small { All (λ line. line.rate ≤ 2 ^ 40) lines.now }
    ensures sum { result ≡ rate_of lines.now }
    ensures small { result < 2 ^ 60 }
{
    let mut sum = 0;
    for line in lines {
        sum += line.rate;
    }
    sum
}

/// The sum of the intercepts.
fn sum_of_intercepts(lines: &[Rate]) -> u64
    requires few { length lines.now ≤ AGENTS }
    requires small { All (λ line. line.intercept < 2 ^ 50) lines.now }
    ensures { result ≡ intercept_of lines.now }
{
    let mut sum = 0;
    for line in lines {
        sum += line.intercept;
    }
    sum
}

/// The least length over which, and over each greater one, so many cycles a tick are at least the sum of the lines; None
/// exactly where there is none. It takes no memory.
pub fn horizon(lines: &[Rate], quantum: u32) -> Option<u64>
    requires few { length lines.now ≤ AGENTS }
    requires rates { All (λ line. line.rate ≤ 2 ^ 40) lines.now }
    requires intercepts { All (λ line. line.intercept < 2 ^ 50) lines.now }
    ensures { MatchOption result ((length : ℕ) → Covers quantum lines.now length → ⊥) (IsHorizonOf quantum lines.now) }
{
    let intercept = sum_of_intercepts(lines);
    let supply = u64::from(quantum) * SCALE;
    let rate = sum_of_rates(lines);
    if rate > supply {
        return None;
    }
    if intercept == 0 {
        return Some(0);
    }
    if rate == supply {
        return None;
    }
    Some(intercept.div_ceil(supply - rate))
}
