//! What a run writes that is taken up again: the rest of what the whole run writes. Laws that join histories, kernels and the states that runs leave.
//! It may know psy_save and what that stands on, through definitions and laws; nothing runs here, and nothing stands on it.
#![tactic(auto)]

pub mod laws;
