//! The dates that a picture shows.

/// The dates that a picture shows: from one to another, both among them.
#[derive(Clone, Copy, Debug, PartialEq, Eq)]
pub struct Window {
    pub from: u64,
    pub to: u64,
}

impl Window {
    /// All dates.
    pub const WHOLE: Window = Window {
        from: 0,
        to: u64::MAX,
    };
}
