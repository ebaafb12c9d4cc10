//! Where a run begins that goes on from a state.
use psy_base::{Items, Message};

/// An action that an agent starts: its number, its point, and the cells that the agent carries.
#[derive(Debug, Drop)]
pub struct NextAction {
    pub number: u64,
    pub point: u32,
    pub cells: Items<i64>,
}

/// An agent whose first date has come: by each variable that it owns the value committed last, in the order of declaration; and the action that it
/// starts at the date of the state, none where it is silent.
#[derive(Debug, Drop)]
pub struct Begun {
    pub copies: Items<i32>,
    pub action: Option<NextAction>,
}

/// An agent of a state: what it has once its first date has come, how many of its actions were due up to the date, and the least slack among them in
/// cycles, if any were.
#[derive(Debug, Drop)]
pub struct AgentOpening {
    pub begun: Option<Begun>,
    pub count: u64,
    pub slack: Option<u64>,
}

/// A variable of a state: the values that it published last, newest first, and how far back they were reached for, if they were.
#[derive(Debug, Drop)]
pub struct VarOpening {
    pub values: Items<i32>,
    pub reach: Option<u32>,
}

/// A stream of a state: the greatest number of messages that it held at a date, and those that it holds, in order.
#[derive(Debug, Drop)]
pub struct StreamOpening {
    pub held: u32,
    pub messages: Items<Message>,
}

/// A state of a run behind a date, which another run may go on from: its agents, variables and streams, in the order of declaration.
#[derive(Debug, Drop)]
pub struct Opening {
    pub date: u64,
    pub agents: Items<AgentOpening>,
    pub variables: Items<VarOpening>,
    pub streams: Items<StreamOpening>,
}
