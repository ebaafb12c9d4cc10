//! What is told of a byte with which no token goes on.
ghost use Rattle.std.specs.Prelude.{◌≡◌, ◌≤◌, length};
ghost use Rattle.std.specs.List.{suffix_len};
ghost use Rattle.psy_tree.specs.Lexemes.{is_in_word};
ghost use Rattle.psy_where.specs.Bytes.{begins_define, begins_include, byte_words, closes_first, colon_slip, first_byte, high_slip, is_dash};
ghost use Rattle.psy_where.specs.Bytes.{is_in_name, is_in_number, is_label, is_unseen, number_slip, plain_slip, second_byte, slip_of, word_back, word_front};

use psy_text::run::is_in_word;

/// Why no token goes on with a byte.
#[derive(Clone, Copy, Debug, PartialEq, Eq)]
pub enum ByteSlip {
    /// A comment was closed before it.
    Nested,
    /// A point inside a number.
    Fraction,
    /// A number in another base.
    Base,
    /// A number that begins with 0.
    Zero,
    /// A word directly behind a number.
    UnitBehind,
    /// A point inside a name.
    Part,
    /// Another point.
    Point,
    /// `#`
    Directive,
    /// `#define`
    Define,
    /// `#include`
    Include,
    /// `?`
    Choice,
    /// `:`
    Colon,
    /// `:=`
    Becomes,
    /// `case` or `default` before `:`.
    Label,
    /// A quote.
    Quote,
    /// Another sign that isn't one of the language.
    NoSign,
    /// A character that isn't seen.
    Unseen,
    /// A dash.
    Dash,
    /// Another character beyond ASCII.
    Beyond,
}

/// What stands at a byte with which no token goes on, by the bytes before it, and itself with those behind it.
pub fn slip_of(front: &[u8], back: &[u8]) -> ByteSlip
    ensures { result ≡ slip_of front.now back.now }
{
    if closes_first(back) {
        ByteSlip::Nested
    } else if 128 <= first_byte(back) {
        high_slip(back)
    } else if first_byte(back) == b':' {
        colon_slip(front, back)
    } else if begins_define(back) {
        ByteSlip::Define
    } else if begins_include(back) {
        ByteSlip::Include
    } else if is_in_number(front) {
        number_slip(front, first_byte(back))
    } else if is_in_name(front, back) {
        ByteSlip::Part
    } else {
        plain_slip(first_byte(back))
    }
}

/// Is a comment closed in these bytes before one is opened?
pub fn closes_first(bytes: &[u8]) -> bool
    ensures { result ≡ closes_first bytes.now }
{
    let mut rest = bytes;
    'each: while let [_, more @ ..] = rest {
        if rest.starts_with(b"*/") {
            return true;
        }
        if rest.starts_with(b"/*") {
            return false;
        }
        rest = more;
    }
    false
}

fn first_byte(bytes: &[u8]) -> u8
    ensures { result ≡ first_byte bytes.now }
{
    match bytes {
        [byte, ..] => *byte,
        [] => 0,
    }
}

fn second_byte(bytes: &[u8]) -> u8
    ensures { result ≡ second_byte bytes.now }
{
    match bytes {
        [_, byte, ..] => *byte,
        _ => 0,
    }
}

// Does a point stand directly between a name and a letter, a digit or `_`?
fn is_in_name(front: &[u8], back: &[u8]) -> bool
    ensures { result ≡ is_in_name front.now back.now }
{
    first_byte(back) == b'.'
        && (is_in_word(first_byte(word_back(front))) && is_in_word(second_byte(back)))
}

// Do the bytes end with a number?
fn is_in_number(front: &[u8]) -> bool
    ensures { result ≡ is_in_number front.now }
{
    first_byte(word_back(front)).is_ascii_digit()
}

// The letters, digits and `_` at the end.
fn word_back(front: &[u8]) -> &[u8]
    ensures { result.now ≡ word_back front.now }
{
    &front[front.len() - word_back_len(front)..]
}

fn word_back_len(front: &[u8]) -> usize
    ensures value { result ≡ suffix_len is_in_word front.now }
    ensures within { result ≤ length front.now }
{
    front.iter().rev().take_while(|b| is_in_word(**b)).count()
}

// The bytes before these.
fn word_front(front: &[u8]) -> &[u8]
    ensures { result.now ≡ word_front front.now }
{
    &front[..front.len() - word_back_len(front)]
}

// What a `:` is.
fn colon_slip(front: &[u8], back: &[u8]) -> ByteSlip
    ensures { result ≡ colon_slip front.now back.now }
{
    if back.starts_with(b":=") {
        ByteSlip::Becomes
    } else if is_label(front) {
        ByteSlip::Label
    } else {
        ByteSlip::Colon
    }
}

// Do the bytes end with `default`, or with `case` and a word or a number?
fn is_label(front: &[u8]) -> bool
    ensures { result ≡ is_label front.now }
{
    word_back(front) == b"default".as_slice() || word_front(front).ends_with(b"case ")
}

fn begins_define(back: &[u8]) -> bool
    ensures { result ≡ begins_define back.now }
{
    back.starts_with(b"#define")
}

fn begins_include(back: &[u8]) -> bool
    ensures { result ≡ begins_include back.now }
{
    back.starts_with(b"#include")
}

// What a byte directly behind a number is.
fn number_slip(front: &[u8], byte: u8) -> ByteSlip
    ensures { result ≡ number_slip front.now byte }
{
    if byte == b'.' {
        ByteSlip::Fraction
    } else if byte.is_ascii_digit() {
        ByteSlip::Zero
    } else if (byte == b'x' || byte == b'X') && word_back(front) == b"0".as_slice() {
        ByteSlip::Base
    } else if is_in_word(byte) {
        ByteSlip::UnitBehind
    } else {
        plain_slip(byte)
    }
}

// What a byte of ASCII is.
fn plain_slip(byte: u8) -> ByteSlip
    ensures { result ≡ plain_slip byte }
{
    if byte == b'.' {
        ByteSlip::Point
    } else if byte == b'#' {
        ByteSlip::Directive
    } else if byte == b'?' {
        ByteSlip::Choice
    } else if byte == b'"' || byte == b'\'' {
        ByteSlip::Quote
    } else if 32 < byte && byte < 127 {
        ByteSlip::NoSign
    } else {
        ByteSlip::Unseen
    }
}

// What a character beyond ASCII is.
fn high_slip(back: &[u8]) -> ByteSlip
    ensures { result ≡ high_slip back.now }
{
    if is_unseen(back) {
        ByteSlip::Unseen
    } else if is_dash(back) {
        ByteSlip::Dash
    } else {
        ByteSlip::Beyond
    }
}

fn is_unseen(back: &[u8]) -> bool
    ensures { result ≡ is_unseen back.now }
{
    back.starts_with(b"\xC2\xA0")
        || (back.starts_with(b"\xC2\xAD")
            || (back.starts_with(b"\xE2\x80\x80")
                || (back.starts_with(b"\xE2\x80\x83")
                    || (back.starts_with(b"\xE2\x80\x89")
                        || (back.starts_with(b"\xE2\x80\x8B")
                            || (back.starts_with(b"\xE2\x80\xAF")
                                || (back.starts_with(b"\xE3\x80\x80")
                                    || back.starts_with(b"\xEF\xBB\xBF"))))))))
}

fn is_dash(back: &[u8]) -> bool
    ensures { result ≡ is_dash back.now }
{
    back.starts_with(b"\xE2\x80\x93")
        || (back.starts_with(b"\xE2\x80\x94") || back.starts_with(b"\xE2\x88\x92"))
}

/// What is told of it.
pub fn byte_words(slip: ByteSlip) -> &'static [u8]
    ensures { result.now ≡ byte_words slip }
{
    match slip {
        ByteSlip::Nested =>
            b"comments don't nest: the first `*/` closed the comment, and what stands behind it is read",
        ByteSlip::Fraction =>
            b"there are no fractions: a number is whole, so count in smaller units",
        ByteSlip::Base => b"numbers are decimal: there are no hexadecimal ones",
        ByteSlip::Zero =>
            b"a number of several digits begins with 1 to 9: leave the zeros before it out",
        ByteSlip::UnitBehind =>
            b"a number is of digits alone, without a unit or `_`: time is counted in ticks; between a number and a word stands a blank",
        ByteSlip::Part =>
            b"names have no parts: a function may give a part of a value, as in `sender(frame)`; all agents know a temporal variable by its name alone",
        ByteSlip::Point => b"there are no fractions, and names have no parts: leave the point out",
        ByteSlip::Directive =>
            b"a comment is written `/* .. */` or `// ..`, and there are no directives",
        ByteSlip::Include =>
            b"there are no directives, and a program is one file: leave this out, and declare here what it needs",
        ByteSlip::Define =>
            b"there are no directives and no named constants: write the number, or a function that returns it, as in `int limit() { return 5; }`",
        ByteSlip::Choice => b"there is no `? :`: write `if (..) { .. } else { .. }`",
        ByteSlip::Colon =>
            b"there is no `:`: a statement ends with `;`, and a type stands before its name",
        ByteSlip::Becomes => b"there is no `:=`: an assignment is written `=`",
        ByteSlip::Label =>
            b"there is no `switch` and no `case`: write `if (..) { .. } else { .. }`",
        ByteSlip::Quote => b"there are no texts and no characters: each value is a number",
        ByteSlip::NoSign =>
            b"this is no sign of the language, and a name has letters, digits and `_` alone",
        ByteSlip::Unseen =>
            b"a character that isn't seen stands here: write a blank in its place, or nothing",
        ByteSlip::Dash => b"this is a dash: the minus sign is `-`",
        ByteSlip::Beyond => b"outside of comments a program has ASCII characters alone",
    }
}
