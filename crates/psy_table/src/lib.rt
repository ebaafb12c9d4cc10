//! Writes a run of any length as a table, in the form that spreadsheets read (RFC 4180).
//! It may know notes of a run, the names that its summary lists, and the passes over long files.
#![tactic(auto)]

mod cells;
mod field;
mod heading;
mod long;
mod rows;
mod table;

pub use long::write_csv;
