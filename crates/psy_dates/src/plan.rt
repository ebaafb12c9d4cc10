//! What a run is given.
use psy_base::{Items, Sizes};
use psy_code::Code;
use psy_tree::Unit;

/// A program to run, with its code, by agent and point the points that may follow, its buffers, and the last date of the run.
#[derive(Debug, Drop)]
pub struct Plan {
    pub unit: Unit,
    pub code: Code,
    pub nexts: Items<Items<Items<u32>>>,
    pub sizes: Sizes,
    pub until: u32,
}
