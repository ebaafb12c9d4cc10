//! The rules that the code of an image breaks, as psyc numbers them.
ghost use Rattle.std.specs.Prelude.{◌≡◌};
ghost use Rattle.psy_where.specs.Broken.{broken_of, broken_sentence};

/// A rule of code that an image breaks.
#[derive(Clone, Copy, Debug, PartialEq, Eq)]
pub enum Broken {
    /// A way leads out of the code.
    Outside,
    /// Two owners reach an instruction.
    Shared,
    /// Operands are missing, left over or too many.
    Heights,
    /// A cell or a counter isn't in its frame, or a call has no room.
    Framed,
    /// An operand names nothing that may be named.
    Named,
    /// A function does what functions may not.
    Ordered,
    /// An action doesn't end at a point.
    Ended,
}

/// The rule of a number, from 1 to 7.
pub fn broken_of(number: u32) -> Option<Broken>
    ensures { result ≡ broken_of number }
{
    match number {
        1 => Some(Broken::Outside),
        2 => Some(Broken::Shared),
        3 => Some(Broken::Heights),
        4 => Some(Broken::Framed),
        5 => Some(Broken::Named),
        6 => Some(Broken::Ordered),
        7 => Some(Broken::Ended),
        _ => None,
    }
}

/// What it means that it is broken.
pub fn broken_sentence(broken: Broken) -> &'static [u8]
    ensures { result.now ≡ broken_sentence broken }
{
    match broken {
        Broken::Outside =>
            b"a way leads out of the code: what this instruction goes on to isn't in it, or a point or a function begins behind its end",
        Broken::Shared =>
            b"this instruction is reached from two owners: each agent and each function has code of its own",
        Broken::Heights =>
            b"two ways come here with different operands, one that is popped isn't there, `Return` or `Advance` has too many, or `stack` is passed",
        Broken::Framed =>
            b"a cell or a counter lies outside its frame, or a call needs more cells and counters than `frames`",
        Broken::Named =>
            b"an operand names nothing that there is or that this agent may name, or reaches back beyond the depth of a variable",
        Broken::Ordered =>
            b"a function calls only functions of lower numbers, and touches no variable, no stream and no point",
        Broken::Ended =>
            b"this `Advance` names no point, or one that begins elsewhere than behind it; or no way leads from here to an `Advance`",
    }
}
