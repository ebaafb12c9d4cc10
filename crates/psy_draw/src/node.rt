//! What is folded of an action graph.

/// A node of a graph: at which point and which date of the cycle an action starts, its budget, and the most that it costs.
#[derive(Clone, Copy, Debug, PartialEq, Eq)]
pub struct Node {
    pub point: u32,
    pub phase: u64,
    pub budget: u32,
    pub worst: u64,
}

/// A step from a point: the point to which it leads, and the date of the cycle at which its action starts.
#[derive(Clone, Copy, Debug, PartialEq, Eq)]
pub struct Step {
    pub to: u32,
    pub phase: u64,
}
