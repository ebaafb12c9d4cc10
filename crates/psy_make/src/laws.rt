//! What each made program has.
ghost use Rattle.std.specs.Prelude.{ℕ, ◌<◌, ◌≤◌, length};
ghost use Rattle.std.specs.List.{All};
ghost use Rattle.psy_base.specs.declared.limits.TheConstants.{FILE_BYTES};
ghost use Rattle.psy_make.specs.Generator.{count_of, agents_of};
ghost use Rattle.psy_make.specs.Text.{made_text};

/// There are 8 to 16 agents. Each has one of the three clocks, looks at a variable that there is, and multiplies by 1
/// to 9.
pub fn agents()
    ensures few { (seed : ℕ) → (8 ≤ count_of seed) × (count_of seed ≤ 16) }
    ensures numbers { (seed : ℕ) → All (λ a. (a.clock < 3) × (a.looks_at < count_of seed) × (1 ≤ a.factor) × (a.factor ≤ 9)) (agents_of seed) }
{}

/// A made text is short enough to be read as a program.
pub fn short()
    ensures { (seed : ℕ) → length (made_text seed) ≤ FILE_BYTES }
{
    agents();
}
