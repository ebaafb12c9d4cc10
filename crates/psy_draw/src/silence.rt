//! From when on variables are silent.
ghost use Rattle.std.specs.Prelude.{◌≡◌, map};
ghost use Rattle.psy_draw.specs.Silences.{silence_at, silent_of};

/// A variable, and the date from which on it is silent, since its owner was stopped.
#[derive(Clone, Copy, Debug, Drop)]
pub struct Silence<'a> {
    pub variable: &'a [u8],
    pub date: u64,
}

/// From when on a variable is silent, where it is.
pub fn silence_at(silences: &[Silence], name: &[u8]) -> Option<u64>
    ensures { result ≡ silence_at (map silent_of silences.now) name.now }
{
    'each: for silence in silences {
        if silence.variable == name {
            return Some(silence.date);
        }
    }
    None
}
