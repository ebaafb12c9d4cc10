//! Trials of the judge: codes that were written by hand, with the faults that it tells of each.
#![tactic(auto)]

#[cfg(test)]
mod calls;
#[cfg(test)]
mod codes;
#[cfg(test)]
mod counting;
#[cfg(test)]
mod heights;
