//! The limits of a state's numbers: each number is below its own.

/// How many actions of an agent were due, and the least slack among them.
pub const FIGURE: u64 = 1 << 50;

/// A date of a message.
pub const FAR: u64 = 1 << 40;
