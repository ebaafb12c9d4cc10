//! Names, numbers and values at the front of a text.
ghost use Rattle.std.specs.Prelude.{◌≡◌, ◌≢◌, ◌^◌, ◌<◌, ◌∷◌, ℕ, ℤ, List, IfSome, MatchOption, decimal, FitsSigned, None};
ghost use Rattle.std.specs.Bool.{Decides};
ghost use Rattle.std.specs.Char.{is_ascii_digit};
ghost use Rattle.std.specs.Fmt.{signed_decimal};
ghost use Rattle.std.specs.Int.{w32};
ghost use Rattle.psy_tree.specs.Lexemes.{Each, is_in_word};
ghost use Rattle.psy_text.specs.Fronts.{Cuts, IsName};

use crate::numeral::{below_zero, not_below_zero, numeral_value, short_of};
use crate::run::{digits_len, word_len};
use psy_base::limits::WORD_BYTES;

/// The name at the front of a text, and what follows it. None exactly where no name of 1 to 32 bytes comes first, up to a byte that is in no word.
pub fn name(text: &[u8]) -> Option<(&[u8], &[u8])>
    ensures some { IfSome result (λ r. IsName r.0.now × Cuts is_in_word text.now r.0.now r.1.now) }
    ensures none { result ≡ None → (name rest : List ℕ) → IsName name → Cuts is_in_word text.now name rest → ⊥ }
{
    let (word, rest) = cut_name(text);
    if is_name(word) {
        Some((word, rest))
    } else {
        None
    }
}

// Letters, digits and `_` are a name.
fn is_name(word: &[u8]) -> bool
    requires { Each is_in_word word.now }
    ensures { Decides result (IsName word.now) }
{
    match word {
        [first, ..] => !first.is_ascii_digit() && word.len() <= WORD_BYTES,
        [] => false,
    }
}

/// The number at the front of a text, as its decimal digits, and what follows it. None exactly where none of 64 bits comes first,
/// up to a byte that is no digit.
pub fn number(text: &[u8]) -> Option<(u64, &[u8])>
    ensures some { IfSome result (λ r. Cuts is_ascii_digit text.now (decimal r.0) r.1.now) }
    ensures none { result ≡ None → (number : ℕ) (rest : List ℕ) → number < 2 ^ 64 → Cuts is_ascii_digit text.now (decimal number) rest → ⊥ }
{
    let (digits, rest) = cut_digits(text);
    Some((numeral_value(digits)?, rest))
}

/// The same for a number of 32 bits.
pub fn short(text: &[u8]) -> Option<(u32, &[u8])>
    ensures some { IfSome result (λ r. Cuts is_ascii_digit text.now (decimal r.0) r.1.now) }
    ensures none { result ≡ None → (number : ℕ) (rest : List ℕ) → number < 2 ^ 32 → Cuts is_ascii_digit text.now (decimal number) rest → ⊥ }
{
    let (number, rest) = number(text)?;
    Some((short_of(number)?, rest))
}

/// The value of 32 bits at the front of a text, with a minus before its digits where it is below 0, and what follows it. None exactly where there is none,
/// up to a byte that is no digit.
pub fn value(text: &[u8]) -> Option<(i32, &[u8])>
    ensures some { IfSome result (λ r. Cuts is_ascii_digit text.now (signed_decimal r.0) r.1.now) }
    ensures none { result ≡ None → (value : ℤ) (rest : List ℕ) → FitsSigned w32 value → Cuts is_ascii_digit text.now (signed_decimal value) rest → ⊥ }
{
    match behind_minus(text) {
        Some(digits) => {
            let (number, rest) = short(digits)?;
            Some((below_zero(number)?, rest))
        }
        None => {
            let (number, rest) = short(text)?;
            Some((not_below_zero(number)?, rest))
        }
    }
}

// What follows a minus at the front.
fn behind_minus(text: &[u8]) -> Option<&[u8]>
    ensures { MatchOption result ((rest : List ℕ) → text.now ≢ 45 ∷ rest) (λ rest. text.now ≡ 45 ∷ rest.now) }
{
    match text {
        [b'-', rest @ ..] => Some(rest),
        _ => None,
    }
}

// The letters, digits and `_` at the front of a text, and what follows them.
fn cut_name(text: &[u8]) -> (&[u8], &[u8])
    ensures each { Each is_in_word result.0.now }
    ensures cuts { Cuts is_in_word text.now result.0.now result.1.now }
{
    text.split_at(word_len(text))
}

// The digits at the front of a text, and what follows them.
fn cut_digits(text: &[u8]) -> (&[u8], &[u8])
    ensures each { Each is_ascii_digit result.0.now }
    ensures cuts { Cuts is_ascii_digit text.now result.0.now result.1.now }
{
    text.split_at(digits_len(text))
}
