//! The action graph of an agent: its nodes and its edges.
use psy_base::{Edge, Items};

/// The actions of an agent that start at a point in one phase of the agent's cycle. Dates are in ticks.
#[derive(Clone, Copy, Debug, PartialEq, Eq)]
pub struct Node {
    pub point: u32,
    /// The start date modulo the agent's cycle, in ticks: dates that differ by a cycle are alike for all clocks of its `advance`s.
    pub phase: u64,
    /// The ticks from the start date to the deadline.
    pub due: u64,
    /// The cycles that the action may take.
    pub budget: u32,
}

/// The action graph of an agent: its nodes in the order of point and phase, and its edges, in the order of the numbers of the
/// nodes where they begin and where they lead.
#[derive(Debug, Drop)]
pub struct Graph {
    pub nodes: Items<Node>,
    pub edges: Items<Edge>,
}
