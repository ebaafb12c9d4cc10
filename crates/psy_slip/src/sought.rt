//! What is looked for among the words of a line.
ghost use Rattle.std.specs.Prelude.{◌≡◌, ◌==◌, map};
ghost use Rattle.std.specs.List.{list_any};
ghost use Rattle.std.specs.Option.{option_copied};
ghost use Rattle.psy_slip.specs.Searches.{begins_comment, begins_letter, first_of, has, is_so};

use crate::numbers::is_beyond;
use psy_text::word::{is_number, is_value};

/// What is looked for in a word.
#[derive(Clone, Copy, Debug, PartialEq, Eq)]
pub enum Sought {
    /// It begins as a comment does, here or in a program.
    Comment,
    /// It holds a comma.
    Comma,
    /// It holds `=` or `:`.
    Equal,
    /// It begins with no letter.
    NoLetter,
    NoNumber,
    NoValue,
    /// It is a value of more than 32 bits.
    Beyond,
}

fn is_so(sought: Sought, word: &[u8]) -> bool
    ensures { result ≡ is_so sought word.now }
{
    match sought {
        Sought::Comment => begins_comment(word),
        Sought::Comma => has_byte(word, b','),
        Sought::Equal => has_byte(word, b'=') || has_byte(word, b':'),
        Sought::NoLetter => !begins_letter(word),
        Sought::NoNumber => !is_number(word),
        Sought::NoValue => !is_value(word),
        Sought::Beyond => is_beyond(word),
    }
}

fn begins_comment(word: &[u8]) -> bool
    ensures { result ≡ begins_comment word.now }
{
    word.starts_with(b"#") || (word.starts_with(b"//") || word.starts_with(b"/*"))
}

fn begins_letter(word: &[u8]) -> bool
    ensures { result ≡ begins_letter word.now }
{
    match word {
        [first, ..] => first.is_ascii_alphabetic(),
        [] => false,
    }
}

/// Does the word hold this byte?
pub fn has_byte(word: &[u8], byte: u8) -> bool
    ensures { result ≡ list_any (λ b. b == byte) word.now }
{
    word.iter().any(|b| *b == byte)
}

/// The first of some words of which it is so.
pub fn first_of<'a>(sought: Sought, words: &[&'a [u8]]) -> Option<&'a [u8]>
    ensures { option_copied result ≡ first_of sought (map (λ w. w.now) words.now) }
{
    let mut rest = words;
    'each: while let [word, more @ ..] = rest {
        if is_so(sought, word) {
            return Some(word);
        }
        rest = more;
    }
    None
}

/// Is it so of one of them?
pub fn has(sought: Sought, words: &[&[u8]]) -> bool
    ensures { result ≡ has sought (map (λ w. w.now) words.now) }
{
    first_of(sought, words).is_some()
}
