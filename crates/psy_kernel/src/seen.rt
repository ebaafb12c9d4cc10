//! What a unit goes to, and what it looks at.

/// A look at a variable: the value that it published `back` of its dates before the last one up to the start of the action that looks, and the
/// place of that value in the variable's ring, below the ring's size.
#[derive(Clone, Copy, Debug, PartialEq, Eq)]
pub struct Seen {
    pub variable: u32,
    pub back: u32,
    pub slot: u32,
    pub value: i32,
}

/// What the next unit of a processor goes to.
#[derive(Clone, Copy, Debug)]
pub(crate) struct Coming {
    /// The agent that gets it.
    pub(crate) ran: Option<u32>,
    /// The look that its action makes with it.
    pub(crate) seen: Option<Seen>,
}
