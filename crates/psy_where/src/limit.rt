//! The limits that psyc says are passed.
ghost use Rattle.std.specs.Prelude.{◌≡◌};
ghost use Rattle.psy_where.specs.Limits.{is_limit, limit_name, limit_number, limit_of, limit_sentence};

use psy_base::limits;

/// A limit that psyc says is passed.
#[derive(Clone, Copy, Debug, PartialEq, Eq)]
pub enum Limit {
    /// Of the bytes of a program.
    Program,
    /// Of the bytes of an image.
    Image,
    /// Of the bytes of a file of inputs.
    Inputs,
    /// Of the bytes of a script.
    Script,
    /// Of the bytes of a trace.
    Trace,
    /// Of the bytes of a state.
    State,
    /// Of clocks.
    Clocks,
    /// Of agents.
    Agents,
    /// Of temporal variables and inputs.
    Variables,
    /// Of streams.
    Streams,
    /// Of functions.
    Functions,
    /// Of the names of an agent or a function.
    Names,
    /// Of the points of an agent.
    Points,
    /// Of the nodes of an agent's graph.
    Nodes,
    /// Of its edges.
    Edges,
    /// Of the values of a variable that are kept.
    Ring,
    /// Of the messages of a stream that are held.
    Queue,
    /// Of the cells of a table.
    Cells,
    /// Of the lines of a file.
    Lines,
    /// Of the cycles of a run.
    Cycles,
}

const LIMITS: [Limit; 20] = [
    Limit::Program,
    Limit::Image,
    Limit::Inputs,
    Limit::Script,
    Limit::Trace,
    Limit::State,
    Limit::Clocks,
    Limit::Agents,
    Limit::Variables,
    Limit::Streams,
    Limit::Functions,
    Limit::Names,
    Limit::Points,
    Limit::Nodes,
    Limit::Edges,
    Limit::Ring,
    Limit::Queue,
    Limit::Cells,
    Limit::Lines,
    Limit::Cycles,
];

/// The limit with this name and number.
pub fn limit_of(name: &[u8], number: u64) -> Option<Limit>
    ensures { result ≡ limit_of name.now number }
{
    LIMITS
        .iter()
        .copied()
        .find(|limit| is_limit(*limit, name, number))
}

fn is_limit(limit: Limit, name: &[u8], number: u64) -> bool
    ensures { result ≡ is_limit limit name.now number }
{
    limit_name(limit) == name && limit_number(limit) == number
}

fn limit_name(limit: Limit) -> &'static [u8]
    ensures { result.now ≡ limit_name limit }
{
    match limit {
        Limit::Program => b"program",
        Limit::Image => b"image",
        Limit::Inputs => b"inputs",
        Limit::Script => b"script",
        Limit::Trace => b"trace",
        Limit::State => b"state",
        Limit::Clocks => b"clocks",
        Limit::Agents => b"agents",
        Limit::Variables => b"variables",
        Limit::Streams => b"streams",
        Limit::Functions => b"functions",
        Limit::Names => b"names",
        Limit::Points => b"points",
        Limit::Nodes => b"nodes",
        Limit::Edges => b"edges",
        Limit::Ring => b"ring",
        Limit::Queue => b"queue",
        Limit::Cells => b"cells",
        Limit::Lines => b"lines",
        Limit::Cycles => b"run",
    }
}

fn limit_number(limit: Limit) -> u64
    ensures { result ≡ limit_number limit }
{
    match limit {
        Limit::Program
        | Limit::Image
        | Limit::Inputs
        | Limit::Script
        | Limit::Trace
        | Limit::State => limits::FILE_BYTES as u64,
        Limit::Clocks => limits::CLOCKS as u64,
        Limit::Agents => limits::AGENTS as u64,
        Limit::Variables => limits::VARIABLES as u64,
        Limit::Streams => limits::STREAMS as u64,
        Limit::Functions => limits::FUNCTIONS as u64,
        Limit::Names => limits::NAMES as u64,
        Limit::Points => limits::POINTS as u64,
        Limit::Nodes => u64::from(limits::NODES),
        Limit::Edges => u64::from(limits::EDGES),
        Limit::Ring => u64::from(limits::RING),
        Limit::Queue => u64::from(limits::QUEUE),
        Limit::Cells => limits::WINDOW_CELLS,
        Limit::Lines => limits::LINES as u64,
        Limit::Cycles => limits::RUN,
    }
}

/// What it means that it is passed.
pub fn limit_sentence(limit: Limit) -> &'static [u8]
    ensures { result.now ≡ limit_sentence limit }
{
    match limit {
        Limit::Program => b"the program has more than 262144 bytes",
        Limit::Image => b"the image has more than 262144 bytes",
        Limit::Inputs => b"the file of inputs has more than 262144 bytes",
        Limit::Script => b"the script has more than 262144 bytes",
        Limit::Trace => b"the trace has more than 262144 bytes",
        Limit::State => b"the state has more than 262144 bytes",
        Limit::Clocks => b"more than 64 clocks are declared",
        Limit::Agents => b"more than 64 agents are declared",
        Limit::Variables => b"more than 256 temporal variables and inputs are declared",
        Limit::Streams => b"more than 64 streams are declared",
        Limit::Functions => b"more than 64 functions are declared",
        Limit::Names =>
            b"an agent or a function has more than 64 names: parameters, variables and arrays",
        Limit::Points =>
            b"an agent has more than 256 points: its `advance` statements, and the head of its body",
        Limit::Nodes =>
            b"an agent's actions may start at more than 512 pairs of a point and a date of its cycle: use clocks whose periods share more",
        Limit::Edges =>
            b"an agent's graph has more than 4096 edges: use clocks whose periods share more",
        Limit::Ring =>
            b"more than 65536 values of a variable would have to be kept: use a slower clock, or a shorter action",
        Limit::Queue =>
            b"more than 65536 messages of a stream may be held at a time: send less, keep them shorter, or make the receiver faster",
        Limit::Cells =>
            b"a table for the demand or for a queue would have more than 4000000 cells: lower budgets, or use clocks whose periods share more",
        Limit::Lines => b"the file has more than 10000 lines",
        Limit::Cycles => b"the last date times the cycles of a tick is more than 100000000",
    }
}
