//! Measures a program before it runs, and reports on it: what its agents may need and have, how tight they stand, and what looks like a slip.
//! It may know the plan of a program, units through the calls that measure them, and templates; no runs.
#![tactic(auto)]

mod agents;
mod asked;
mod measures;
mod part;
mod text;
mod tight;
mod warnings;

pub use asked::asked_for;
pub use measures::{Measures, measure};
pub use text::report;
