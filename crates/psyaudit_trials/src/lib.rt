//! Trials of the judge of traces: a trace that was worked out by hand, what is told of it where a line is spoilt, and texts that are no traces.
#![tactic(auto)]

#[cfg(test)]
mod judged;
#[cfg(test)]
mod lines;
#[cfg(test)]
mod spoilt;
#[cfg(test)]
mod texts;
