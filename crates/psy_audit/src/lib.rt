//! What a trace of processors is, line by line, and when it is legal: who ran when, what was published, and what was looked at; and the judge of a trace of any
//! origin, apart from any run. `psyc audit` asks it.
//! It may know plans and scripts, the history's definitions and the words of lines; no code of agents, no kernel.
#![tactic(auto)]

mod apart;
mod before;
mod courses;
mod cycles;
mod faults;
mod first;
pub mod laws;
mod looks;
mod order;
mod publications;
mod read;
mod rows;
mod said;
mod stretches;
mod table;
mod tables;
mod timing;
mod turns;
mod verdict;
mod waits;
mod walk;

pub use read::read_trace;
pub use said::{Act, Ending, Look, Publication, Said, Segment};
pub use verdict::{AuditFault, Legal, audit};
