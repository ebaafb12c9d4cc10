//! Words that are numbers or values, compared.
ghost use Rattle.std.specs.Prelude.{◌≡◌, map};
ghost use Rattle.psy_slip.specs.Numbers.{greatest, is_above, is_beyond, is_less_number, is_nothing, is_same_number};

use psy_text::word::{number, value};

/// Is the word a number above this one?
pub fn is_above(limit: u64, word: &[u8]) -> bool
    ensures { result ≡ is_above limit word.now }
{
    number(word).is_some_and(|n| limit < n)
}

/// Is it 0?
pub fn is_nothing(word: &[u8]) -> bool
    ensures { result ≡ is_nothing word.now }
{
    number(word).is_some_and(|n| n == 0)
}

/// Are two words one number?
pub fn is_same_number(word: &[u8], other: &[u8]) -> bool
    ensures { result ≡ is_same_number word.now other.now }
{
    match (number(word), number(other)) {
        (Some(n), Some(m)) => n == m,
        _ => false,
    }
}

fn is_less_number(word: &[u8], other: &[u8]) -> bool
    ensures { result ≡ is_less_number word.now other.now }
{
    match (number(word), number(other)) {
        (Some(n), Some(m)) => n < m,
        _ => false,
    }
}

/// The first of the greatest among a number and those behind it.
pub fn greatest<'a>(word: &'a [u8], words: &[&'a [u8]]) -> &'a [u8]
    ensures { result.now ≡ greatest word.now (map (λ w. w.now) words.now) }
{
    let mut most = word;
    let mut rest = words;
    'each: while let [other, more @ ..] = rest {
        if is_less_number(most, other) {
            most = other;
        }
        rest = more;
    }
    most
}

/// Is the word a value of more than 32 bits?
pub fn is_beyond(word: &[u8]) -> bool
    ensures { result ≡ is_beyond word.now }
{
    value(word).is_some_and(|v| v < i64::from(i32::MIN) || i64::from(i32::MAX) < v)
}
