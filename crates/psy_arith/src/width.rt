//! The widths of numbers.
ghost use Rattle.std.specs.Prelude.{◌≡◌};
ghost use Rattle.psy_arith.specs.Types.{type1, type2};
ghost use Rattle.psy_arith.specs.Widths.{is_narrower, of_type, wider};
ghost use mir.Val.{bits};

use crate::{Op1, Op2};

/// How many bits a number has.
#[derive(Clone, Copy, Debug, PartialEq, Eq)]
pub enum Width {
    /// `int8`
    W8,
    /// `int16`
    W16,
    /// `int32`, and `int`
    W32,
    /// `int64`
    W64,
}

impl Width {
    /// How many bits that is.
    pub fn bits(self) -> u32
        ensures { result ≡ bits (of_type self) }
    {
        match self {
            Width::W8 => 8,
            Width::W16 => 16,
            Width::W32 => 32,
            Width::W64 => 64,
        }
    }

    /// It has fewer bits than the other.
    pub fn is_narrower(self, other: Width) -> bool
        ensures { result ≡ is_narrower self other }
    {
        self.bits() < other.bits()
    }

    /// The wider of both.
    pub fn wider(self, other: Width) -> Width
        ensures { result ≡ wider self other }
    {
        if self.is_narrower(other) { other } else { self }
    }

    /// The type of what an operator with one operand gives at this width.
    pub fn after_one(self, op: Op1) -> Width
        ensures { result ≡ type1 op self }
    {
        match op {
            Op1::Not => Width::W32,
            Op1::Neg | Op1::Flip => self,
        }
    }

    /// The type of what an operator with two operands gives at this width.
    pub fn after_two(self, op: Op2) -> Width
        ensures { result ≡ type2 op self }
    {
        match op {
            Op2::Lt | Op2::Le | Op2::Gt | Op2::Ge => Width::W32,
            Op2::Eq | Op2::Ne | Op2::AndAnd | Op2::OrOr => Width::W32,
            _ => self,
        }
    }
}
