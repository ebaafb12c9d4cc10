//! What instructions are to the ways on which they stand.

ghost use Rattle.std.specs.Prelude.{◌≡◌};
ghost use Rattle.psy_flow.specs.Quests.{part_of};

use psy_code::Instr;

/// What an instruction is to the ways on which it stands.
#[derive(Clone, Copy, Debug)]
pub enum Part {
    /// It ends them, at a point.
    End(u32),
    /// It looks at a variable.
    Look(u32),
    /// It sends to a stream, so many dates of a clock later.
    Sent { stream: u32, after: u32, clock: u32 },
    /// None of these.
    Other,
}

/// What an instruction is to the ways on which it stands.
pub fn part_of(instr: &Instr) -> Part
    ensures { result ≡ part_of instr.now }
{
    match instr {
        Instr::Advance(point) => Part::End(*point),
        Instr::Past { variable, .. } => Part::Look(*variable),
        Instr::Send {
            stream,
            after,
            clock,
        } => Part::Sent {
            stream: *stream,
            after: *after,
            clock: *clock,
        },
        _ => Part::Other,
    }
}
