//! What is said where a run is none, or can't be read.
ghost use Rattle.std.specs.Prelude.{◌≡◌, ◌≢◌, ◌≤◌};
ghost use Rattle.psy_export.specs.Ending.{Says};

use psy_door::Sink;
use psy_log::write_all_of;

/// A status, and what is written.
#[derive(Debug, Drop)]
pub struct Said {
    pub status: u8,
    pub text: Vec<u8>,
}

/// Writes a text and answers with this status; with 4 where a write failed.
pub fn say<S: Sink>(text: &[u8], status: u8, out: &mut S) -> u8
    ensures said { Says (S.held out.old) (S.held out.new) (S.faults out.old) (S.faults out.new) result status text.now }
    ensures unfailed { result ≢ 4 → S.faults out.new ≡ S.faults out.old }
    ensures sink { S.faults out.old ≤ S.faults out.new }
{
    match write_all_of(out, text) {
        Ok(()) => status,
        Err(_) => 4,
    }
}
