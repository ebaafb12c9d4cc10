//! What digits stand for.
ghost use Rattle.std.specs.Prelude.{◌≡◌, ◌^◌, ◌<◌, ◌≤◌, All, IsTrue, MatchOption};
ghost use Rattle.std.specs.Char.{is_ascii_digit};
ghost use Rattle.psy_tree.specs.Lexemes.{decimal_value};

/// What digits stand for in the decimal system, where it has 64 bits. None exactly where it has more.
pub fn decimal_value(digits: &[u8]) -> Option<u64>
    requires { All (λ b. IsTrue (is_ascii_digit b)) digits.now }
    ensures { MatchOption result (2 ^ 64 ≤ decimal_value digits.now) (λ value. (value ≡ decimal_value digits.now) × (value < 2 ^ 64)) }
{
    let mut value: u64 = 0;
    for digit in digits {
        value = value
            .checked_mul(10)?
            .checked_add(u64::from(*digit - b'0'))?;
    }
    Some(value)
}
