//! How many places each buffer of a program has.
use crate::Items;

/// How many places each buffer has: the ring of each variable, the queue of each stream, the outbox of each agent.
#[derive(Debug, Drop)]
pub struct Sizes {
    pub rings: Items<u32>,
    pub queues: Items<u32>,
    pub outboxes: Items<u32>,
}
