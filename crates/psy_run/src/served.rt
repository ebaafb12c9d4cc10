//! What the commands come to.
use psy_base::{Items, Sizes};
use psy_graph::Graph;
use psy_kernel::Kernel;
use psy_plan::Extent;
use psy_rate::Rate;
use psy_tree::Unit;

/// What a command does, once nothing refuses it.
#[derive(Drop)]
pub enum Served {
    /// Runs a program: its kernel, just booted.
    Ran(Kernel),
    /// Writes the sizes of a program's rings and queues, the lines above the demands of its agents, and over which lengths the demand is met.
    Checked {
        unit: Unit,
        sizes: Sizes,
        lines: Items<Rate>,
        extent: Extent,
    },
    /// Writes the graphs of a program's agents, with the greatest costs by agent and point, in instructions.
    Drawn {
        unit: Unit,
        graphs: Items<Graph>,
        costs: Items<Items<u64>>,
    },
    /// Writes the text of a program that was made.
    Made(Vec<u8>),
    /// Runs a program that was made, and writes the summary alone: its kernel, just booted.
    Tried(Kernel),
    /// Writes how many actions and how many looks a legal trace tells of.
    Audited {
        acts: u32,
        looks: u32,
    },
    /// Writes the image of a program.
    Built(Vec<u8>),
    /// Runs the code of an image: its kernel, just booted.
    Executed(Kernel),
    /// Writes the trace of a program's run: its kernel, which ran, and the text.
    Traced(Kernel, Vec<u8>),
    /// Writes the state that a program's run leaves: its kernel, which ran, and the bytes.
    Saved(Kernel, Vec<u8>),
    /// Goes on with a program's run: its kernel, just opened behind a state.
    Resumed(Kernel),
}
