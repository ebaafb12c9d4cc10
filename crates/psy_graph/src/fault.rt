//! Why no graphs are given.
ghost use Rattle.std.specs.Prelude.{◌≡◌};
ghost use Rattle.psy_graph.specs.declared.fault.GraphFault.TheVariants.{Memory as no_memory};

use psy_base::Memory;
use thiserror::Error;

/// Why no graphs are given.
#[derive(Clone, Copy, Debug, PartialEq, Eq, Error)]
pub enum GraphFault {
    /// The graph of this agent would have more than 512 nodes.
    #[error("the graph of agent {0} passes 512 nodes")]
    Nodes(u32),
    /// It has no more than 512 nodes, but more than 4,096 edges.
    #[error("the graph of agent {0} passes 4,096 edges")]
    Edges(u32),
    /// Want of memory.
    #[error("out of memory")]
    Memory,
}

impl From<Memory> for GraphFault {
    ghost from_gives = { λ _ fault. fault ≡ no_memory };

    fn from(_memory: Memory) -> GraphFault {
        GraphFault::Memory
    }
}
