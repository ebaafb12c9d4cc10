//! The spellings of reserved words and signs.
ghost use Rattle.std.specs.Prelude.{◌≡◌};
ghost use Rattle.psy_token.specs.Reading.{reserved, sign_at};
ghost use Rattle.psy_tree.specs.Lexemes.{word_spelling, sign_spelling};

use psy_tree::{Sign, Word};

const WORDS: [Word; 30] = [
    Word::Advance,
    Word::After,
    Word::Agent,
    Word::Body,
    Word::Budget,
    Word::Clock,
    Word::Depth,
    Word::Else,
    Word::If,
    Word::Input,
    Word::Int,
    Word::Int8,
    Word::Int16,
    Word::Int32,
    Word::Int64,
    Word::Keep,
    Word::Max,
    Word::Of,
    Word::On,
    Word::Past,
    Word::Processor,
    Word::Ready,
    Word::Return,
    Word::Send,
    Word::Stream,
    Word::Take,
    Word::Temporal,
    Word::Tick,
    Word::To,
    Word::While,
];

/// The signs of two bytes first.
const SIGNS: [Sign; 29] = [
    Sign::ShiftLeft,
    Sign::ShiftRight,
    Sign::LessEqual,
    Sign::GreaterEqual,
    Sign::Equal,
    Sign::NotEqual,
    Sign::AmpAmp,
    Sign::BarBar,
    Sign::Semicolon,
    Sign::OpenBrace,
    Sign::CloseBrace,
    Sign::OpenRound,
    Sign::CloseRound,
    Sign::OpenSquare,
    Sign::CloseSquare,
    Sign::Comma,
    Sign::Assign,
    Sign::Plus,
    Sign::Minus,
    Sign::Star,
    Sign::Slash,
    Sign::Percent,
    Sign::Less,
    Sign::Greater,
    Sign::Amp,
    Sign::Caret,
    Sign::Bar,
    Sign::Tilde,
    Sign::Bang,
];

/// The spelling of a reserved word.
pub fn word_spelling(word: Word) -> &'static [u8]
    ensures { result.now ≡ word_spelling word }
{
    match word {
        Word::Advance => b"advance",
        Word::After => b"after",
        Word::Agent => b"agent",
        Word::Body => b"body",
        Word::Budget => b"budget",
        Word::Clock => b"clock",
        Word::Depth => b"depth",
        Word::Else => b"else",
        Word::If => b"if",
        Word::Input => b"input",
        Word::Int => b"int",
        Word::Int8 => b"int8",
        Word::Int16 => b"int16",
        Word::Int32 => b"int32",
        Word::Int64 => b"int64",
        Word::Keep => b"keep",
        Word::Max => b"max",
        Word::Of => b"of",
        Word::On => b"on",
        Word::Past => b"past",
        Word::Processor => b"processor",
        Word::Ready => b"ready",
        Word::Return => b"return",
        Word::Send => b"send",
        Word::Stream => b"stream",
        Word::Take => b"take",
        Word::Temporal => b"temporal",
        Word::Tick => b"tick",
        Word::To => b"to",
        Word::While => b"while",
    }
}

/// The spelling of a sign.
pub fn sign_spelling(sign: Sign) -> &'static [u8]
    ensures { result.now ≡ sign_spelling sign }
{
    match sign {
        Sign::Semicolon => b";",
        Sign::OpenBrace => b"{",
        Sign::CloseBrace => b"}",
        Sign::OpenRound => b"(",
        Sign::CloseRound => b")",
        Sign::OpenSquare => b"[",
        Sign::CloseSquare => b"]",
        Sign::Comma => b",",
        Sign::Assign => b"=",
        Sign::Plus => b"+",
        Sign::Minus => b"-",
        Sign::Star => b"*",
        Sign::Slash => b"/",
        Sign::Percent => b"%",
        Sign::ShiftLeft => b"<<",
        Sign::ShiftRight => b">>",
        Sign::Less => b"<",
        Sign::LessEqual => b"<=",
        Sign::Greater => b">",
        Sign::GreaterEqual => b">=",
        Sign::Equal => b"==",
        Sign::NotEqual => b"!=",
        Sign::Amp => b"&",
        Sign::Caret => b"^",
        Sign::Bar => b"|",
        Sign::AmpAmp => b"&&",
        Sign::BarBar => b"||",
        Sign::Tilde => b"~",
        Sign::Bang => b"!",
    }
}

/// The reserved word with this spelling.
pub fn reserved(word: &[u8]) -> Option<Word>
    ensures { result ≡ reserved word.now }
{
    WORDS
        .iter()
        .copied()
        .find(|candidate| word_spelling(*candidate) == word)
}

/// The longest sign with which the bytes begin.
pub fn sign_at(rest: &[u8]) -> Option<Sign>
    ensures { result ≡ sign_at rest.now }
{
    SIGNS
        .iter()
        .copied()
        .find(|sign| rest.starts_with(sign_spelling(*sign)))
}
