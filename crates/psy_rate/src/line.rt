//! The line above the demand of one agent.

/// Parts of a cycle, in which rates and intercepts are told.
pub const SCALE: u64 = 1_048_576;

/// A line above an agent's demand: over a length of so many ticks its actions may ask for at most the rate by the length and
/// the intercept, in parts of a cycle.
#[derive(Clone, Copy, Debug, PartialEq, Eq)]
pub struct Rate {
    pub rate: u64,
    pub intercept: u64,
}
