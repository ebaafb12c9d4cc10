//! Names, numbers and values that are whole words.
ghost use Rattle.std.specs.Prelude.{◌≡◌, ◌≢◌, ◌^◌, ◌<◌, ℕ, ℤ, FitsSigned, IfSome, None, decimal};
ghost use Rattle.std.specs.Bool.{Decides};
ghost use Rattle.std.specs.Fmt.{signed_decimal};
ghost use Rattle.std.specs.Int.{w32};
ghost use Rattle.psy_text.specs.Fronts.{IsName};

use crate::front;
use crate::laws::{one_name, one_number, one_value};

/// Is the word a name of 1 to 32 bytes?
pub fn is_name(word: &[u8]) -> bool
    ensures { Decides result (IsName word.now) }
{
    one_name();
    match front::name(word) {
        Some((_, rest)) => rest.is_empty(),
        None => false,
    }
}

/// The number of 64 bits that a word is, as its decimal digits.
pub fn number(word: &[u8]) -> Option<u64>
    ensures some { IfSome result (λ number. word.now ≡ decimal number) }
    ensures none { result ≡ None → (number : ℕ) → number < 2 ^ 64 → word.now ≢ decimal number }
{
    one_number();
    let (number, rest) = front::number(word)?;
    if rest.is_empty() { Some(number) } else { None }
}

/// The same for a number of 32 bits.
pub fn short(word: &[u8]) -> Option<u32>
    ensures some { IfSome result (λ number. word.now ≡ decimal number) }
    ensures none { result ≡ None → (number : ℕ) → number < 2 ^ 32 → word.now ≢ decimal number }
{
    one_number();
    let (number, rest) = front::short(word)?;
    if rest.is_empty() { Some(number) } else { None }
}

/// The value of 32 bits that a word is, with a minus before its digits where it is below 0.
pub fn value(word: &[u8]) -> Option<i32>
    ensures some { IfSome result (λ value. word.now ≡ signed_decimal value) }
    ensures none { result ≡ None → (value : ℤ) → FitsSigned w32 value → word.now ≢ signed_decimal value }
{
    one_value();
    let (value, rest) = front::value(word)?;
    if rest.is_empty() { Some(value) } else { None }
}
