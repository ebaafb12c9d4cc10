//! What is due next in a run.

/// What is due next.
#[derive(Clone, Copy, Debug, PartialEq, Eq)]
pub enum Stage {
    /// The date of this number.
    DateDue(u64),
    /// The cycle of this number, no processor of which had its unit.
    CycleDue(u64),
    /// Of the cycle of this number, which was begun, the unit of this processor.
    UnitDue(u64, u32),
    /// Nothing: the last date was done.
    Over,
}
