//! What can be said of an agent's actions before they run: the points that follow each point, what an action
//! costs, sends and looks at on the way, and how deep the agent's machine gets.
//! It may know trees and code, their ways and their measures.
#![tactic(auto)]

mod backwards;
mod bits;
mod calls;
mod code_delays;
mod code_lists;
mod code_sends;
mod costs;
mod counts;
mod delays;
mod depths;
mod ends;
mod expressions;
mod flow;
mod found;
mod gather;
mod gauge;
mod kinds;
pub mod laws;
mod listed;
mod looking;
mod next;
mod numbers;
mod parts;
mod paths;
mod point_lists;
mod points;
mod quests;
mod reach;
mod sending;
mod settling;
mod stack;
mod starts;
mod statements;
mod texts;
mod tops;
mod walks;
mod worst_costs;

pub use code_lists::code_ways;
pub use depths::Depths;
pub use flow::{looks, most_sends, worst};
pub use listed::{sends, ways};
pub use next::next_points;
pub use paths::{Paths, code_paths};
pub use stack::depth_of_stack;
pub use worst_costs::worsts;
