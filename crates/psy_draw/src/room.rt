//! The room of a picture.

/// The most lanes of a picture, and the most names of variables without a value.
pub const MOST_LANES: usize = 4_096;

/// The most rows of a table.
pub const MOST_ROWS: usize = 4_096;
