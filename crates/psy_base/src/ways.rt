//! What a reader of a program has to know of the ways of its actions, from each point to the next one.
use crate::Items;

/// The sends to a stream on the ways from a point to another: at most so many on one way.
#[derive(Clone, Copy, Debug, PartialEq, Eq)]
pub struct SendWay {
    /// The point where such a way ends.
    pub to: u32,
    pub stream: u32,
    /// At least 1, and cut at 65,537.
    pub most: u64,
}

/// The ways of a program's actions: the first three lists by agent and point, the last one by stream.
#[derive(Debug, Drop)]
pub struct Ways {
    /// The points where a way from the point ends, rising.
    pub nexts: Items<Items<Items<u32>>>,
    /// The variables at which a way from the point looks, rising.
    pub looks: Items<Items<Items<u32>>>,
    /// The sends on the ways from the point, rising by `to` and then by `stream`.
    pub sends: Items<Items<Items<SendWay>>>,
    /// The most ticks from the end of an action to the date from which a message that it sent is visible; 0 where there is no send.
    pub delays: Items<u64>,
}
