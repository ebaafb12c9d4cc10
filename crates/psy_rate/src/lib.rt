//! A line above the demand of an agent, which holds for every length, and the length from which on it is below the supply.
#![tactic(auto)]

pub mod laws;
mod line;
mod rates;
mod rounds;
mod rows;
mod supply;

pub use line::{Rate, SCALE};
pub use rates::certify;
pub use supply::horizon;
