//! Sets of 64 numbers as the bits of a cell.

ghost use Rattle.std.specs.Prelude.{◌≡◌, ◌<◌, ℕ, nat_eq, ◌↔◌};
ghost use Rattle.std.specs.Int.{bit_at};
ghost use Rattle.psy_flow.specs.Bits.{HasBit};

/// Whether the bit of this number is set.
pub fn has_bit(cell: u64, bit: u32) -> bool
    requires { bit < 64 }
    ensures { result ≡ nat_eq (bit_at cell bit) 1 }
{
    (cell >> bit) & 1 == 1
}

/// The cell in which the bit of this number alone is set.
pub fn one_bit(bit: u32) -> u64
    requires { bit < 64 }
    ensures { (other : ℕ) → HasBit result other ↔ (other ≡ bit) }
{
    1u64 << bit
}
