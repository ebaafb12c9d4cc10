//! Trials of what `psyview` stands on, where no command can say them.
#![tactic(auto)]

#[cfg(test)]
mod folds;
#[cfg(test)]
mod graphs;
#[cfg(test)]
mod greatest;
#[cfg(test)]
mod windows;
