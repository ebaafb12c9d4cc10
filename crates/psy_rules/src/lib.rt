//! Names and rules: from the tree of a program to its unit, or to the first of its faults.
//! It may know trees, units and clocks; no tokens.
#![tactic(auto)]

mod clocks;
mod counts;
mod declarations;
mod expressions;
mod judge;
pub mod laws;
mod least;
mod names;
mod numbers;
mod resolution;
mod scope;
mod slots;
mod statements;
mod uses;
mod walk;

pub use resolution::{RuleFault, resolve};
