//! Trials of the crates at the bottom, through their public calls: limits, names, operators at each width, clocks, instructions, devices, texts that are
//! read, written and made, and what a run holds: values, messages, charges, and who is ready.
//! They stand above those crates, which would be proved once more for tests of their own.
#![tactic(auto)]

#[cfg(test)]
mod tests;
