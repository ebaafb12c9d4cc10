//! How a whole piece of text goes to a sink.
ghost use Rattle.std.specs.Prelude.{◌≡◌, ◌<◌, ◌≤◌, [], length, take, drop, OnOk, IfErr, OnErr};
ghost use Rattle.psy_door.specs.Faults.{Rose};
ghost use Rattle.psy_door.specs.Growth.{Grew};
ghost use Rattle.psy_log.specs.Writing.{Calls, Written};

use psy_door::Sink;
use thiserror::Error;

/// A write that failed, after so many bytes of the piece.
#[derive(Clone, Copy, Debug, PartialEq, Eq, Error)]
#[error("the text can't be written")]
pub struct WriteFault {
    /// How many bytes of the piece were written.
    pub taken: usize,
}

/// Writes the whole piece, in as many calls as the sink takes. It takes no memory.
pub fn write_all_of<S: Sink>(out: &mut S, piece: &[u8]) -> Result<(), WriteFault>
    ensures counted { S.faults out.old ≤ S.faults out.new }
    ensures written { Written (S.held out.old) (S.held out.new) result piece.now }
    ensures front { IfErr result (λ fault. Grew (S.held out.old) (S.held out.new) (take fault.taken piece.now)) }
    ensures short { IfErr result (λ fault. fault.taken < length piece.now) }
    ensures unfailed { OnOk result (S.faults out.new ≡ S.faults out.old) }
    ensures failed { OnErr result (Rose (S.faults out.old) (S.faults out.new)) }

    // Each call is given all that is left of the piece, and none follows one that failed.
    ensures calls { Calls S.calls out.old piece.now result out.new }
{
    let mut taken = 0;
    'writing: while taken < piece.len() {
        let (_, rest) = piece.split_at(taken);
        match out.write(rest) {
            Ok(n) => taken += n,
            Err(_) => return Err(WriteFault { taken }),
        }
    }
    Ok(())
}
