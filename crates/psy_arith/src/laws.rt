//! Laws of the definitions, each the contract of a function that does nothing.

ghost use Rattle.std.specs.Prelude.{◌≡◌, ℕ, ℤ, ◌<◌, ◌+ℤ◌, ◌*ℤ◌, ◌↔◌, false, int_div, int_rem, unsigned_abs, FitsSigned, IfSome};
ghost use Rattle.std.specs.Int.{Width, int_wrap};
ghost use Rattle.psy_arith.specs.Operators.{Wraps, value1, value2};
ghost use Rattle.psy_arith.specs.declared.operators.Op1.{Op1};
ghost use Rattle.psy_arith.specs.declared.operators.Op2.{Op2};
ghost use Rattle.psy_arith.specs.declared.width.Width.{Width as Named};
ghost use Rattle.psy_arith.specs.Types.{taken1, taken2, type1, type2};
ghost use Rattle.psy_arith.specs.Widths.{is_narrower, of_type};

/// One number alone is in a width's range and differs by a multiple of 2 ^ bits from a given one.
pub fn wraps()
    ensures only { (w : Width) (z r : ℤ) → (Wraps w z r ↔ r ≡ int_wrap w z) }
{}

/// The remainder is what the truncated quotient leaves, and is smaller than the divisor.
pub fn remainders()
    ensures left { (a b : ℤ) → a ≡ int_div a b *ℤ b +ℤ int_rem a b }
    ensures below { (a b : ℤ) → 0 < unsigned_abs b → unsigned_abs (int_rem a b) < unsigned_abs b }
{}

/// A value is in the width's range where the left operand is.
pub fn ranges()
    ensures two { (w : Width) (op : Op2) (a b : ℤ) → FitsSigned w a → IfSome (value2 w op a b) (FitsSigned w) }
    ensures one { (w : Width) (op : Op1) (a : ℤ) → FitsSigned w (value1 w op a) }
{}

/// What an operator gives has the range of its type, whatever its operands; a number taken at a width has its range, and one
/// in range is itself; a number in the range of a type is in that of each type that isn't narrower.
pub fn types()
    ensures two { (w : Named) (op : Op2) (a b : ℤ) → IfSome (taken2 (of_type w) op a b) (FitsSigned (of_type (type2 op w))) }
    ensures one { (w : Named) (op : Op1) (a : ℤ) → FitsSigned (of_type (type1 op w)) (taken1 (of_type w) op a) }
    ensures taken { (w : Width) (a : ℤ) → FitsSigned w (int_wrap w a) }
    ensures whole { (w : Width) (a : ℤ) → FitsSigned w a → int_wrap w a ≡ a }
    ensures wider { (v w : Named) (a : ℤ) → is_narrower w v ≡ false → FitsSigned (of_type v) a → FitsSigned (of_type w) a }
{}
