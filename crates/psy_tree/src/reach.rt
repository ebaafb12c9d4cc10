//! What names stand for, and which places there are.

/// What a name stands for.
#[derive(Clone, Copy, Debug, PartialEq, Eq)]
pub enum Found {
    /// A declaration of the program, by its place among all of them.
    Item(usize),
    /// A parameter, variable or array of the agent or function, by its number there.
    Slot(usize),
}

/// What a place asks of the name that stands there.
#[derive(Clone, Copy, Debug, PartialEq, Eq)]
pub enum Asks {
    /// A clock.
    Clock,
    /// A clock that stands above.
    Parent,
    /// An agent.
    Agent,
    /// A variable of the agent or function, or a temporal variable that the agent owns: what an
    /// expression reads and an assignment writes.
    Value,
    /// An array.
    Cell,
    /// A temporal variable or an input, of any owner.
    Past,
    /// A stream to send to.
    Target,
    /// A stream that the agent receives.
    Messages,
    /// A function with so many parameters.
    Call(usize),
}
