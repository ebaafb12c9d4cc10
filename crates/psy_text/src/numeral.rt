//! Numbers as they are written, and their narrowing.
ghost use Rattle.std.specs.Prelude.{◌≡◌, ◌^◌, ◌<◌, ◌≤◌, ◌⊎◌, ◌∷◌, ℕ, IfSome, MatchOption, None, length, decimal, slice_index};
ghost use Rattle.std.specs.Bool.{Decides};
ghost use Rattle.std.specs.Char.{is_ascii_digit};
ghost use Rattle.std.specs.Fmt.{signed_decimal};
ghost use Rattle.psy_tree.specs.Lexemes.{Each};

use crate::decimal::decimal_value;

/// The number of 64 bits whose decimal digits these are.
pub fn numeral_value(digits: &[u8]) -> Option<u64>
    requires { Each is_ascii_digit digits.now }
    ensures some { IfSome result (λ number. digits.now ≡ decimal number) }
    ensures none { result ≡ None → (number : ℕ) → number < 2 ^ 64 → digits.now ≡ decimal number → ⊥ }
{
    if is_number(digits) {
        decimal_value(digits)
    } else {
        None
    }
}

// There are digits, and no zero in front of others.
fn is_number(digits: &[u8]) -> bool
    ensures { Decides result ((0 < length digits.now) × (slice_index digits.now 0 ≡ 48 → length digits.now ≡ 1)) }
{
    match digits {
        [b'0'] => true,
        [first, ..] => *first != b'0',
        [] => false,
    }
}

/// The number, where it has 32 bits.
pub fn short_of(number: u64) -> Option<u32>
    ensures { MatchOption result ((2 ^ 32 ≤ number) × (number < 2 ^ 64)) (λ short. short ≡ number) }
{
    u32::try_from(number).ok()
}

/// The value of 32 bits that is this number.
pub fn not_below_zero(number: u32) -> Option<i32>
    ensures some { IfSome result (λ value. signed_decimal value ≡ decimal number) }
    ensures none { result ≡ None → (2 ^ 31 ≤ number) × (number < 2 ^ 32) }
{
    i32::try_from(number).ok()
}

/// The value of 32 bits that is so far below 0.
pub fn below_zero(number: u32) -> Option<i32>
    ensures some { IfSome result (λ value. signed_decimal value ≡ 45 ∷ decimal number) }
    ensures none { result ≡ None → ((number ≡ 0) ⊎ (2 ^ 31 < number)) × (number < 2 ^ 32) }
{
    if number == 0 {
        return None;
    }
    i32::try_from(-i64::from(number)).ok()
}
