//! How far bytes of one sort go at the front of a text.
ghost use Rattle.std.specs.Prelude.{◌≡◌, ◌≤◌, length};
ghost use Rattle.std.specs.List.{prefix_len};
ghost use Rattle.std.specs.Char.{is_ascii_digit};
ghost use Rattle.psy_tree.specs.Lexemes.{begins_word, is_in_line, is_in_word};

/// Is it a letter or `_`?
pub fn begins_word(byte: u8) -> bool
    ensures { result ≡ begins_word byte }
{
    byte.is_ascii_alphabetic() || byte == b'_'
}

/// Is it a letter, a digit or `_`?
pub fn is_in_word(byte: u8) -> bool
    ensures { result ≡ is_in_word byte }
{
    begins_word(byte) || byte.is_ascii_digit()
}

/// How many bytes at the front are letters, digits and `_`.
pub fn word_len(text: &[u8]) -> usize
    ensures value { result ≡ prefix_len is_in_word text.now }
    ensures within { result ≤ length text.now }
{
    text.iter().take_while(|b| is_in_word(**b)).count()
}

/// How many bytes at the front are digits.
pub fn digits_len(text: &[u8]) -> usize
    ensures value { result ≡ prefix_len is_ascii_digit text.now }
    ensures within { result ≤ length text.now }
{
    text.iter().take_while(|b| b.is_ascii_digit()).count()
}

/// How many bytes stand before the first line feed.
pub fn line_len(text: &[u8]) -> usize
    ensures value { result ≡ prefix_len is_in_line text.now }
    ensures within { result ≤ length text.now }
{
    text.iter().take_while(|b| **b != b'\n').count()
}
