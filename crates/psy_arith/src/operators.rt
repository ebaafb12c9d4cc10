//! The operators of expressions, and their values at each width: 8, 16, 32 and 64 bits.
ghost use Rattle.std.specs.Prelude.{◌≡◌, Some, None, MatchResult, FitsSigned};
ghost use Rattle.std.specs.Int.{w8, w16, w32, w64};
ghost use Rattle.psy_arith.specs.Operators.{value1, value2};
ghost use Rattle.psy_arith.specs.Widths.{width_of, IsWidth};
ghost use Rattle.psy_arith.specs.declared.operators.Trap.TheVariants as trap;

/// An operator with one operand.
#[derive(Clone, Copy, Debug, PartialEq, Eq)]
pub enum Op1 {
    /// `-`
    Neg,
    /// `~`
    Flip,
    /// `!`
    Not,
}

/// An operator with two operands.
#[derive(Clone, Copy, Debug, PartialEq, Eq)]
pub enum Op2 {
    /// `*`
    Mul,
    /// `/`
    Div,
    /// `%`
    Rem,
    /// `+`
    Add,
    /// `-`
    Sub,
    /// `<<`
    Shl,
    /// `>>`
    Shr,
    /// `<`
    Lt,
    /// `<=`
    Le,
    /// `>`
    Gt,
    /// `>=`
    Ge,
    /// `==`
    Eq,
    /// `!=`
    Ne,
    /// `&`
    And,
    /// `^`
    Xor,
    /// `|`
    Or,
    /// `&&`
    AndAnd,
    /// `||`
    OrOr,
}

/// Why an action was cut short.
#[derive(Clone, Copy, Debug, PartialEq, Eq)]
pub enum Trap {
    /// A division or a remainder by zero.
    Divide,
    /// An index outside its array.
    Index,
    /// A bounded loop whose test was still true after its greatest number of turns.
    Loop,
    /// A message was taken where there was none.
    Take,
}

// The value of `a op b` on the native type `int` of so many bits. A shift has its distance modulo its bits,
// before it is counted in 32 of them.
macro_rules! by_operator {
    ($int:ident, $bits:literal: $op:ident, $a:ident, $b:ident) => {{
        if $b == 0 && matches!($op, Op2::Div | Op2::Rem) {
            return Err(Trap::Divide);
        }
        let distance = ($b.cast_unsigned() % $bits) as u32;
        match $op {
            Op2::Mul => Ok($a.wrapping_mul($b)),
            Op2::Div => Ok($a.wrapping_div($b)),
            Op2::Rem => Ok($a.wrapping_rem($b)),
            Op2::Add => Ok($a.wrapping_add($b)),
            Op2::Sub => Ok($a.wrapping_sub($b)),
            Op2::Shl => Ok($a.wrapping_shl(distance)),
            Op2::Shr => Ok($a.wrapping_shr(distance)),
            Op2::Lt => Ok($int::from($a < $b)),
            Op2::Le => Ok($int::from($a <= $b)),
            Op2::Gt => Ok($int::from($a > $b)),
            Op2::Ge => Ok($int::from($a >= $b)),
            Op2::Eq => Ok($int::from($a == $b)),
            Op2::Ne => Ok($int::from($a != $b)),
            Op2::And => Ok($a & $b),
            Op2::Xor => Ok($a ^ $b),
            Op2::Or => Ok($a | $b),
            Op2::AndAnd => Ok($int::from($a != 0 && $b != 0)),
            Op2::OrOr => Ok($int::from($a != 0 || $b != 0)),
        }
    }};
}

#[tactic(auto, using(std::proofs::lemmas::Int::wraps))]
pub(crate) fn binary_8(op: Op2, a: i8, b: i8) -> Result<i8, Trap>
    ensures value { MatchResult result (λ value. value2 w8 op a b ≡ Some value) (λ t. (t ≡ trap.Divide) × (value2 w8 op a b ≡ None)) }
{
    by_operator!(i8, 8: op, a, b)
}

#[tactic(auto, using(std::proofs::lemmas::Int::wraps))]
pub(crate) fn binary_16(op: Op2, a: i16, b: i16) -> Result<i16, Trap>
    ensures value { MatchResult result (λ value. value2 w16 op a b ≡ Some value) (λ t. (t ≡ trap.Divide) × (value2 w16 op a b ≡ None)) }
{
    by_operator!(i16, 16: op, a, b)
}

#[tactic(auto, using(std::proofs::lemmas::Int::wraps))]
pub(crate) fn binary_32(op: Op2, a: i32, b: i32) -> Result<i32, Trap>
    ensures value { MatchResult result (λ value. value2 w32 op a b ≡ Some value) (λ t. (t ≡ trap.Divide) × (value2 w32 op a b ≡ None)) }
{
    by_operator!(i32, 32: op, a, b)
}

#[tactic(auto, using(std::proofs::lemmas::Int::wraps))]
pub(crate) fn binary_64(op: Op2, a: i64, b: i64) -> Result<i64, Trap>
    ensures value { MatchResult result (λ value. value2 w64 op a b ≡ Some value) (λ t. (t ≡ trap.Divide) × (value2 w64 op a b ≡ None)) }
{
    by_operator!(i64, 64: op, a, b)
}

/// The value of `a op b` at `W` bits (ISO C 6.5): sums and products wrap around, a shift goes by `b`
/// modulo `W`, and a comparison gives 1 or 0. `Trap::Divide` exactly where a division or a remainder is
/// by 0, and no other trap.
pub fn apply2<const W: u32>(op: Op2, a: i64, b: i64) -> Result<i64, Trap>
    requires width { IsWidth W }
    requires left { FitsSigned (width_of W) a }
    requires right { FitsSigned (width_of W) b }
    ensures value { MatchResult result (λ value. value2 (width_of W) op a b ≡ Some value) (λ t. (t ≡ trap.Divide) × (value2 (width_of W) op a b ≡ None)) }
{
    match W {
        8 => Ok(i64::from(binary_8(op, a as i8, b as i8)?)),
        16 => Ok(i64::from(binary_16(op, a as i16, b as i16)?)),
        32 => Ok(i64::from(binary_32(op, a as i32, b as i32)?)),
        _ => binary_64(op, a, b),
    }
}

/// The value of `op a` at `W` bits: `-` wraps around, `!` gives 1 or 0.
#[tactic(auto, using(std::proofs::lemmas::Int::wraps))]
pub fn apply1<const W: u32>(op: Op1, a: i64) -> i64
    requires width { IsWidth W }
    requires operand { FitsSigned (width_of W) a }
    ensures value { result ≡ value1 (width_of W) op a }
{
    match op {
        Op1::Neg => match W {
            8 => i64::from((a as i8).wrapping_neg()),
            16 => i64::from((a as i16).wrapping_neg()),
            32 => i64::from((a as i32).wrapping_neg()),
            _ => a.wrapping_neg(),
        },
        Op1::Flip => !a,
        Op1::Not => i64::from(a == 0),
    }
}
