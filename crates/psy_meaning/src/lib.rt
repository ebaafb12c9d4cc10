//! What programs mean: the definitions of what expressions and statements do and cost, of the ways that an action may take, of graphs,
//! demand and the sizes of buffers, and of code that acts alike; and their laws. Nothing runs here.
//! It may know texts, trees and code; nothing runs.
#![tactic(auto)]

pub mod laws;
