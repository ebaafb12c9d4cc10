//! Numbers as they are written.
ghost use Rattle.std.specs.Prelude.{◌≡◌, ◌<◌, ◌≤◌, All, IsTrue, MatchOption, length, slice_index};
ghost use Rattle.std.specs.Char.{is_ascii_digit};
ghost use Rattle.psy_tree.specs.Lexemes.{decimal_value};
ghost use Rattle.psy_token.specs.Reading.{number_len};

use psy_base::limits::LITERAL;
use psy_text::decimal;
use psy_text::run::digits_len;

/// How many bytes the number at the front has.
pub fn number_len(rest: &[u8]) -> usize
    requires { 0 < length rest.now }
    ensures value { result ≡ number_len rest.now }
    ensures within { result ≤ length rest.now }
{
    if rest[0] == b'0' { 1 } else { digits_len(rest) }
}

/// What the digits stand for, unless it is greater than a number may be.
pub fn decimal_value(digits: &[u8]) -> Option<u32>
    requires { All (λ b. IsTrue (is_ascii_digit b)) digits.now }
    ensures { MatchOption result (LITERAL < decimal_value digits.now) (λ value. (value ≡ decimal_value digits.now) × (value ≤ LITERAL)) }
{
    let value = decimal::decimal_value(digits)?;
    if value > u64::from(LITERAL) {
        return None;
    }
    Some(value as u32)
}
