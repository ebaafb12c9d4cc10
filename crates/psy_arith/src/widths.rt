//! Numbers taken at a width, and the operators on operands of any size.
ghost use Rattle.std.specs.Prelude.{◌≡◌, Some, None, MatchResult};
ghost use Rattle.std.specs.Int.{w8, w16, w32, int_wrap};
ghost use Rattle.psy_arith.specs.Types.{taken1, taken2};
ghost use Rattle.psy_arith.specs.Widths.{width_of, of_type, IsWidth};
ghost use Rattle.psy_arith.specs.declared.operators.Trap.TheVariants as trap;

use crate::operators::{binary_8, binary_16, binary_32, binary_64};
use crate::{Op1, Op2, Trap, Width};

#[tactic(auto, using(crate::proofs::Wrapping::rem_wraps))]
fn low_8(a: i64) -> i8
    ensures value { result ≡ int_wrap w8 a }
{
    let bits = a.rem_euclid(1 << 8) as u8;
    bits.cast_signed()
}

#[tactic(auto, using(crate::proofs::Wrapping::rem_wraps))]
fn low_16(a: i64) -> i16
    ensures value { result ≡ int_wrap w16 a }
{
    let bits = a.rem_euclid(1 << 16) as u16;
    bits.cast_signed()
}

#[tactic(auto, using(crate::proofs::Wrapping::rem_wraps))]
fn low_32(a: i64) -> i32
    ensures value { result ≡ int_wrap w32 a }
{
    let bits = a.rem_euclid(1 << 32) as u32;
    bits.cast_signed()
}

/// What is left of `a` in `W` bits, as a signed number.
pub fn narrow<const W: u32>(a: i64) -> i64
    requires width { IsWidth W }
    ensures value { result ≡ int_wrap (width_of W) a }
{
    match W {
        8 => i64::from(low_8(a)),
        16 => i64::from(low_16(a)),
        32 => i64::from(low_32(a)),
        _ => a,
    }
}

/// What is left of `a` at a width, as a signed number.
pub fn narrowed(width: Width, a: i64) -> i64
    ensures value { result ≡ int_wrap (of_type width) a }
{
    match width {
        Width::W8 => i64::from(low_8(a)),
        Width::W16 => i64::from(low_16(a)),
        Width::W32 => i64::from(low_32(a)),
        Width::W64 => a,
    }
}

/// The value of `a op b` at a width, for which each operand is first taken modulo 2 ^ bits, as signed.
/// `Trap::Divide` exactly where a division or a remainder is by 0, and no other trap.
pub fn operate2(width: Width, op: Op2, a: i64, b: i64) -> Result<i64, Trap>
    ensures value { MatchResult result (λ value. taken2 (of_type width) op a b ≡ Some value) (λ t. (t ≡ trap.Divide) × (taken2 (of_type width) op a b ≡ None)) }
{
    match width {
        Width::W8 => Ok(i64::from(binary_8(op, low_8(a), low_8(b))?)),
        Width::W16 => Ok(i64::from(binary_16(op, low_16(a), low_16(b))?)),
        Width::W32 => Ok(i64::from(binary_32(op, low_32(a), low_32(b))?)),
        Width::W64 => binary_64(op, a, b),
    }
}

/// The value of `op a` at a width, for which the operand is first taken modulo 2 ^ bits, as signed; `!`
/// takes it whole.
#[tactic(auto, using(std::proofs::lemmas::Int::wraps))]
pub fn operate1(width: Width, op: Op1, a: i64) -> i64
    ensures value { result ≡ taken1 (of_type width) op a }
{
    match op {
        Op1::Neg => match width {
            Width::W8 => i64::from(low_8(a).wrapping_neg()),
            Width::W16 => i64::from(low_16(a).wrapping_neg()),
            Width::W32 => i64::from(low_32(a).wrapping_neg()),
            Width::W64 => a.wrapping_neg(),
        },
        Op1::Flip => match width {
            Width::W8 => i64::from(!low_8(a)),
            Width::W16 => i64::from(!low_16(a)),
            Width::W32 => i64::from(!low_32(a)),
            Width::W64 => !a,
        },
        Op1::Not => i64::from(a == 0),
    }
}
