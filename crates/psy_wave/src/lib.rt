//! Writes a run of any length as a value change dump (IEEE 1364-2005, clause 18), which viewers of waveforms read.
//! It may know notes of a run, the names that its summary lists, and the passes over long files.
#![tactic(auto)]

mod change;
mod header;
pub mod laws;
mod line;
mod long;
mod teller;
mod time;

pub use long::write_vcd;
