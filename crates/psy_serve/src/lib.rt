//! What psyc does, by its own top call, and behind a line with which it refuses the explanation.
//! It may know psy_run, psy_where, and sinks that remember the last line; not how anything is judged.
#![tactic(auto)]

mod served;
mod speak;

pub use served::serve;
