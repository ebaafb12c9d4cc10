//! The image of a program: of its unit and of the code that the compiler makes of it.
//! It may know programs and images; nothing of files and commands.
#![tactic(auto)]

mod building;
pub mod laws;

pub use building::build;
