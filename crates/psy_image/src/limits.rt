//! Limits of an image that its program doesn't have by itself. Each is the greatest number that is accepted.

/// Cells that an agent's variables and arrays have together.
pub const AGENT_CELLS: u32 = 16_384;

/// Counters of an agent or a function.
pub const COUNTERS: u32 = 65_536;

/// Operands of an agent.
pub const STACK: u32 = 1_000_000;

/// Cells and counters of all open calls of an agent.
pub const FRAMES: u32 = 1_000_000;
