//! The words of a line, and the numbers and values that words are.
ghost use Rattle.std.specs.Prelude.{◌≡◌, ◌^◌, ◌<◌, [], ◌∷◌, IfOk, IfSome, MatchOption, length, map, not};
ghost use Rattle.std.specs.Char.{is_ascii_digit};
ghost use Rattle.std.specs.List.{list_all, prefix_len};
ghost use Rattle.psy_text.specs.Words.{is_gap, is_number, is_value, number_of, value_of, words_of};

use crate::decimal::decimal_value;
use psy_base::Memory;
use psy_base::limits::WORD_DIGITS;
use std::alloc::Global;

/// The front of some bytes, and what is left of them.
#[derive(Clone, Copy)]
pub struct Cut<'a> {
    pub front: &'a [u8],
    pub rest: &'a [u8],
}

/// The words of a line. The only error is want of memory.
pub fn words_of(alloc: Global, line: &[u8]) -> Result<Vec<&[u8]>, Memory>
    ensures { IfOk result (λ words. map (λ w. w.now) words.items ≡ words_of line.now) }
{
    let mut words = Vec::new(alloc);
    let mut rest = line;
    'each: while let Some(cut) = cut_word(rest) {
        words.push(cut.front)?;
        rest = cut.rest;
    }
    Ok(words)
}

/// The first word of a line, and what follows it. None exactly where the line has no words.
pub fn cut_word(line: &[u8]) -> Option<Cut<'_>>
    ensures { MatchOption result (words_of line.now ≡ []) (λ cut. (words_of line.now ≡ cut.front.now ∷ words_of cut.rest.now)
        × (length cut.rest.now < length line.now)) }
{
    let (_, words) = line.split_at(gaps_len(line));
    if words.is_empty() {
        return None;
    }
    let (front, rest) = words.split_at(unbroken_len(words));
    Some(Cut { front, rest })
}

// How many spaces and tabs come first.
fn gaps_len(line: &[u8]) -> usize
    ensures { result ≡ prefix_len is_gap line.now }
{
    line.iter().take_while(|b| is_gap(**b)).count()
}

// How many bytes stand before the first space or tab.
fn unbroken_len(line: &[u8]) -> usize
    ensures { result ≡ prefix_len (λ b. not (is_gap b)) line.now }
{
    line.iter().take_while(|b| !is_gap(**b)).count()
}

// Space or tab
fn is_gap(b: u8) -> bool
    ensures { result ≡ is_gap b }
{
    b == b' ' || b == b'\t'
}

/// The number that a word is: 1 to 12 decimal digits. None exactly where it is no number.
pub fn number(word: &[u8]) -> Option<u64>
    ensures value { result ≡ number_of word.now }
    ensures small { IfSome result (λ n. n < 10 ^ 12) }
{
    if is_number(word) {
        decimal_value(word)
    } else {
        None
    }
}

/// The value that a word is: a number, which may have one `-` before it. None exactly where it is none.
pub fn value(word: &[u8]) -> Option<i64>
    ensures { result ≡ value_of word.now }
{
    match word.split_first() {
        Some((b'-', digits)) => Some(-(number(digits)? as i64)),
        _ => Some(number(word)? as i64),
    }
}

/// Is the word 1 to 12 decimal digits?
pub fn is_number(word: &[u8]) -> bool
    ensures { result ≡ is_number word.now }
{
    let len = word.len();
    1 <= len && (len <= WORD_DIGITS && are_digits(word))
}

fn are_digits(word: &[u8]) -> bool
    ensures { result ≡ list_all is_ascii_digit word.now }
{
    word.iter().all(u8::is_ascii_digit)
}

/// Is it a number, which may have one `-` before it?
pub fn is_value(word: &[u8]) -> bool
    ensures { result ≡ is_value word.now }
{
    match word.split_first() {
        Some((b'-', digits)) => is_number(digits),
        _ => is_number(word),
    }
}
