//! What the lines of a trace say.

/// How an action ended.
#[derive(Clone, Copy, Debug, PartialEq, Eq)]
pub enum Ending {
    /// It reached a point, from which the next one goes on at this date.
    At(u64),
    /// It was stopped.
    Stopped,
    /// It wasn't finished when the trace ended.
    Unfinished,
}

/// An action that was started. An agent is told by its number among those declared, and a name that none has by their count.
#[derive(Clone, Copy, Debug, PartialEq, Eq)]
pub struct Act {
    pub agent: u32,
    /// Its number among the agent's actions, from 0.
    pub number: u64,
    /// The point that it begins at.
    pub point: u64,
    /// The date that it starts at, and the date that it is due at.
    pub start: u64,
    pub due: u64,
    /// The cycles that it was given before the trace ended.
    pub work: u64,
    pub ending: Ending,
}

/// A value that a variable or an input published.
#[derive(Clone, Copy, Debug, PartialEq, Eq)]
pub struct Publication {
    /// By its number among those declared; a name that none has by their count.
    pub variable: u32,
    pub date: u64,
    /// The place of its ring that the value was put into.
    pub slot: u64,
    pub value: i64,
}

/// A stretch of cycles that a processor gave to one action: from `first` on, before `past`.
#[derive(Clone, Copy, Debug, PartialEq, Eq)]
pub struct Segment {
    pub processor: u64,
    pub first: u64,
    pub past: u64,
    pub agent: u32,
    pub number: u64,
}

/// A look of an action at a variable.
#[derive(Clone, Copy, Debug, PartialEq, Eq)]
pub struct Look {
    pub agent: u32,
    pub number: u64,
    /// The cycle in which it looked.
    pub cycle: u64,
    pub variable: u32,
    /// How many of the variable's dates it looked back from the start of its action.
    pub back: u64,
    /// The place of the ring that it found the value in.
    pub slot: u64,
    pub value: i64,
}

/// What a line says.
#[derive(Clone, Copy, Debug, PartialEq, Eq)]
pub enum Said {
    Acted(Act),
    Published(Publication),
    Served(Segment),
    Looked(Look),
    /// The trace is over.
    Ended,
}
