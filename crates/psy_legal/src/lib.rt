//! The trace of a run is legal: laws that join what is known of runs to the judge of traces.
//! It may know histories, plans and traces, through their definitions and laws.
#![tactic(auto)]

pub mod laws;
