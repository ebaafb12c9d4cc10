//! A message of a stream.

/// A message of a stream. Messages are ordered by their first four numbers.
#[derive(Clone, Copy, Debug, PartialEq, Eq)]
pub struct Message {
    /// The first date at which it can be seen.
    pub visible: u64,
    /// The end date of the action that sent it.
    pub entry: u64,
    /// The agent that sent it.
    pub sender: u32,
    /// Its number among the sends of that action, counted from 0.
    pub number: u32,
    /// From this date on it can't be seen.
    pub expiry: u64,
    pub value: i32,
}
