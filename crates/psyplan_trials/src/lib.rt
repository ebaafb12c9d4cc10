//! Trials of what is told of programs before they run: greatest weights, demands and lines worked out by hand; and from texts, who feeds whom,
//! the report, and refusals.
#![tactic(auto)]

#[cfg(test)]
mod flows;
#[cfg(test)]
mod reports;
#[cfg(test)]
mod tests;
#[cfg(test)]
mod texts;
