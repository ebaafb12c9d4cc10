//! What is told of a token at which a rule is broken: which declaration its name has, what its place asks for, and what to do.
//! It may know tokens, the lines on which they stand, and the numbers of the rules; no grammar.
#![tactic(auto)]

mod breach;
mod declared;
mod loops;
mod names;
mod numbers;
mod role;
mod sentences;
mod token;
mod told;
mod wrong;

pub use breach::breach_hint;
pub use declared::{How, Reach, Sort};
pub use role::Role;
