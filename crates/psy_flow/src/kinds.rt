//! What is listed of ways through code, as bits by place.

ghost use Rattle.std.specs.Prelude.{◌≡◌, ◌+◌, ◌<◌, ℕ, ◌↔◌};
ghost use Rattle.psy_flow.specs.Bits.{HasBit, IsSought};

use crate::bits::one_bit;
use crate::parts::Part;

/// What is listed of ways by its numbers.
#[derive(Clone, Copy, Debug)]
pub enum Sought {
    /// The points where they end.
    Ends,
    /// The variables at which they look.
    Looks,
}

// The bit of a number, where the first bit is that of `first`.
fn bit_of(number: u32, first: u32) -> u64
    ensures { (bit : ℕ) → HasBit result bit ↔ ((bit < 64) × (number ≡ first + bit)) }
{
    if number < first || number - first >= 64 {
        return 0;
    }
    one_bit(number - first)
}

impl Sought {
    /// Of 64 numbers from the first on, the bit of the one that such a part of a way has.
    pub fn bits(self, part: Part, first: u32) -> u64
        ensures { (bit : ℕ) → HasBit result bit ↔ ((bit < 64) × IsSought self part (first + bit)) }
    {
        match part {
            Part::End(point) => match self {
                Sought::Ends => bit_of(point, first),
                Sought::Looks => 0,
            },
            Part::Look(variable) => match self {
                Sought::Ends => 0,
                Sought::Looks => bit_of(variable, first),
            },
            _ => 0,
        }
    }
}
