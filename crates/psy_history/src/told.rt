//! What a run is told from outside: the values of inputs, execution times, ties and rounds.
use psy_base::Items;
use psy_budget::Stall;

/// By variable, the values of its list; empty where it has none.
#[derive(Debug, Drop)]
pub struct Inputs {
    pub lists: Items<Items<i32>>,
}

/// From a cycle on, until a later one's order, ties of deadlines go by this order, which lists each agent once.
#[derive(Debug, Drop)]
pub struct Order {
    pub cycle: u64,
    pub agents: Items<u32>,
}

/// From a cycle on, until a later one's round, the processors do their units of a cycle in this round, which lists each processor once.
#[derive(Debug, Drop)]
pub struct Round {
    pub cycle: u64,
    pub processors: Items<u32>,
}

/// The stalls before instructions, rising by agent, action and instruction; the orders, and the rounds, rising by cycle.
#[derive(Debug, Drop)]
pub struct Script {
    pub stalls: Items<Stall>,
    pub orders: Items<Order>,
    pub rounds: Items<Round>,
}
