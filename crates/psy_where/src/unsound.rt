//! What is wrong with a state, as psyc numbers it.
ghost use Rattle.std.specs.Prelude.{◌≡◌};
ghost use Rattle.psy_where.specs.Unsound.{unsound_of, unsound_sentence};

/// What is wrong at a byte of a state.
#[derive(Clone, Copy, Debug, PartialEq, Eq)]
pub enum Unsound {
    /// The bytes spell no state.
    Spelling,
    /// An agent can't stand so.
    Standing,
    /// A message can't be held so.
    Held,
}

/// The fault of a number, from 1 to 3.
pub fn unsound_of(number: u32) -> Option<Unsound>
    ensures { result ≡ unsound_of number }
{
    match number {
        1 => Some(Unsound::Spelling),
        2 => Some(Unsound::Standing),
        3 => Some(Unsound::Held),
        _ => None,
    }
}

/// What it means.
pub fn unsound_sentence(unsound: Unsound) -> &'static [u8]
    ensures { result.now ≡ unsound_sentence unsound }
{
    match unsound {
        Unsound::Spelling =>
            b"the field of the state that begins at this byte is missing, cut or out of its range, or a byte stands behind the last field",
        Unsound::Standing =>
            b"the agent can't stand so at that date: it hasn't begun though its first date has come, has begun though it hasn't, \
            or starts at a point that no run of the program reaches at such a date",
        Unsound::Held =>
            b"this message isn't behind the one before it, entered behind the state's date, can be seen before it entered, \
            expires no later than it can be seen, or has expired though its receiver has begun",
    }
}
