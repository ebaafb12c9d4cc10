//! Which names are nearly the same. It may know bytes alone.
#![tactic(auto)]

mod near;

pub use near::is_near;
