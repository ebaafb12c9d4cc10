//! The room of a queue.

/// Places of a queue, with those of the messages that it may begin with.
pub const MOST_PLACES: u32 = 131_072;
