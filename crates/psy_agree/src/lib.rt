//! What the definitions of psyc and of psyview say together: psyview reads whatever psyc writes. Nothing runs here.
//! It may know the definitions and laws of psy_run and psy_notes; nothing stands on it.
#![tactic(auto)]

pub mod laws;
