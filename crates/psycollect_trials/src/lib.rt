//! Trials of traces, worked out by hand.
#![tactic(auto)]

#[cfg(test)]
mod traces;
