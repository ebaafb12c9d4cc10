//! Laws of the definitions, each the contract of a function that does nothing.

ghost use Rattle.std.specs.Prelude.{◌≡◌, ℕ, ◌+◌, ◌*◌, ◌<◌, ◌≤◌, ◌↔◌};
ghost use Rattle.psy_clock.specs.declared.clock.Clock.{Clock};
ghost use Rattle.psy_clock.specs.Dates.{IsClock, IsAfter, IsFrom, date, count, count_below, after_date, from_date};

/// Dates are counted by their numbers, and there is one k-th date above a time, and one from it on.
pub fn dates()
    ensures count { (c : Clock) (t i : ℕ) → IsClock c → (date c i ≤ t ↔ i < count c t) }
    ensures below { (c : Clock) (t i : ℕ) → IsClock c → (date c i < t ↔ i < count_below c t) }
    ensures after { (c : Clock) (t k d : ℕ) → IsClock c → 1 ≤ k → (IsAfter c t k d ↔ d ≡ after_date c t k) }
    ensures from { (c : Clock) (t k d : ℕ) → IsClock c → (IsFrom c t k d ↔ d ≡ from_date c t k) }
{}

/// How far from a time its dates lie, and that they come again period by period.
pub fn distances()
    ensures late { (c : Clock) (t k : ℕ) → IsClock c → 1 ≤ k → t < after_date c t k }
    ensures near { (c : Clock) (t k : ℕ) → IsClock c → 1 ≤ k → after_date c t k ≤ t + k * c.period }
    ensures from_late { (c : Clock) (t k : ℕ) → IsClock c → t ≤ from_date c t k }
    ensures from_near { (c : Clock) (t k : ℕ) → IsClock c → from_date c t k < t + (k + 1) * c.period }
    ensures again { (c : Clock) (t k n : ℕ) → IsClock c → after_date c (t + n * c.period) k ≡ after_date c t k + n * c.period }
{}
