//! What a line says.
use psy_arith::Trap;

/// What a line says. Names are borrowed, so a note takes no memory to make. Dates are counted in ticks from 0.
#[derive(Clone, Copy, Debug)]
pub enum Note<'a> {
    /// From this date on the agent is silent, since its budget was spent.
    StopOverrun {
        date: u64,
        agent: &'a [u8],
    },
    /// From this date on the agent is silent, since it trapped.
    StopTrap {
        date: u64,
        agent: &'a [u8],
        kind: Trap,
    },
    /// A temporal variable publishes a value.
    Value {
        date: u64,
        variable: &'a [u8],
        value: i32,
    },
    /// A message becomes visible.
    Message {
        date: u64,
        stream: &'a [u8],
        value: i32,
    },
    /// The last date was done.
    End {
        until: u64,
    },
    /// How many actions of an agent were due, and the least slack among them in cycles.
    AgentEnd {
        agent: &'a [u8],
        count: u64,
        slack: Option<u64>,
    },
    /// The places of a variable, and how far a look went back.
    VariableEnd {
        variable: &'a [u8],
        size: u32,
        reach: Option<u32>,
    },
    /// The places of a stream, and the most messages that it held.
    StreamEnd {
        stream: &'a [u8],
        size: u32,
        held: u32,
    },
    /// The places that a variable needs.
    VariableSize {
        variable: &'a [u8],
        size: u32,
    },
    /// The places that a stream needs.
    StreamSize {
        stream: &'a [u8],
        size: u32,
    },
    /// In any L ticks an agent needs at most (rate * L + intercept) / 2^20 cycles.
    Rate {
        agent: &'a [u8],
        rate: u64,
        intercept: u64,
    },
    /// The demand is met at every length.
    Always,
    /// The demand is met at each length up to this one.
    Feasible {
        until: u64,
    },
    /// The least length at which the demand passes the supply, and the processor where it isn't the first.
    Infeasible {
        length: u64,
        demand: u64,
        supply: u64,
        processor: Option<u32>,
    },
    /// How many nodes and edges an agent's action graph has.
    AgentGraph {
        agent: &'a [u8],
        nodes: u32,
        edges: u32,
    },
    /// A node of an action graph.
    Node {
        number: u32,
        point: u32,
        phase: u64,
        budget: u32,
        worst: u64,
        due: u64,
    },
    /// An edge of an action graph.
    EdgeOf {
        from: u32,
        to: u32,
        len: u64,
    },
    /// The words are of no listed form.
    Words,
    /// A file can't be read.
    Read {
        file: &'a [u8],
    },
    /// A count passes its limit.
    Limit {
        name: &'a [u8],
        number: u64,
    },
    /// A text is refused for the fault of this number, at a place where one is told.
    Refused {
        what: &'a [u8],
        number: u32,
        at: Option<u32>,
    },
    /// An image is refused at this byte.
    RefusedImage {
        place: u32,
    },
    /// An agent is in the midst of an action where the state should be taken.
    Busy {
        agent: &'a [u8],
    },
    /// A trace is legal, and has so many actions and looks.
    Legal {
        acts: u32,
        looks: u32,
    },
}
