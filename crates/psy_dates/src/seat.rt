//! Where an agent is: in the action that it started last.
use psy_arith::Trap;

/// What an agent is at.
#[derive(Clone, Copy, Debug, PartialEq, Eq)]
pub enum Phase {
    /// Its first date hasn't come.
    Waiting,
    /// Its action is pending.
    Acting,
    /// Its action has reached a point, whose date may still come.
    Ended,
    /// Its action trapped or overran.
    Stopped,
    /// It was stopped, and the deadline is over.
    Silent,
}

/// Where an agent is: in the action that it started last.
#[derive(Clone, Copy, Debug, PartialEq, Eq)]
pub struct Seat {
    pub phase: Phase,
    /// The action's number, from 0.
    pub number: u64,
    /// The point where it began.
    pub point: u32,
    /// Its start date.
    pub start: u64,
    /// Its deadline, a date.
    pub deadline: u64,
    /// Where it ended: the end date, and the point reached.
    pub end: u64,
    pub reached: u32,
    /// By what it trapped, if it did.
    pub trap: Option<Trap>,
}
