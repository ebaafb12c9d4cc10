//! What the definitions of commands say together: what `build` writes runs as its program does, and what `save` leaves goes on as the whole run does.
//! It may know the definitions and laws of psy_run, of psy_rest and of what they stand on. Nothing runs here, and nothing stands on it.
#![tactic(auto)]

pub mod laws;
