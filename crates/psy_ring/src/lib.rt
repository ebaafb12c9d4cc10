//! The history of a temporal variable or an input: the values published last, as many as actions that may
//! still look at them need.
//! It may know numbers; no dates.
#![tactic(auto)]

mod ring;

pub use ring::Ring;
