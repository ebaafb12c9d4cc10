//! An edge of an agent's action graph.

/// An edge of an agent's action graph: an action of the node `from` that the node `to` follows. Lengths and dues are in ticks.
#[derive(Clone, Copy, Debug, PartialEq, Eq)]
pub struct Edge {
    pub from: u32,
    pub to: u32,
    /// From the action's start date to its end date.
    pub len: u64,
    /// From its start date to its deadline, which is never behind its end date.
    pub due: u64,
    /// What the action counts: its budget in cycles, or its sends.
    pub weight: u64,
}
