//! The tokens of a program's text.
use psy_base::Text;

/// A token, and where its first byte stands.
#[derive(Debug, Drop)]
pub struct Token {
    /// Bytes before it, from 0.
    pub place: u32,
    pub kind: Kind,
}

/// What a token is.
#[derive(Debug, Drop)]
pub enum Kind {
    /// A reserved word.
    Word(Word),
    /// A word that isn't reserved, of at most 32 bytes.
    Name(Text),
    /// A number, from 0 to 2,147,483,647.
    Number(u32),
    Sign(Sign),
}

/// The reserved words: each is spelled as its variant, in small letters.
#[derive(Clone, Copy, Debug, PartialEq, Eq)]
pub enum Word {
    Advance,
    After,
    Agent,
    Body,
    Budget,
    Clock,
    Depth,
    Else,
    If,
    Input,
    Int,
    Int8,
    Int16,
    Int32,
    Int64,
    Keep,
    Max,
    Of,
    On,
    Past,
    Processor,
    Ready,
    Return,
    Send,
    Stream,
    Take,
    Temporal,
    Tick,
    To,
    While,
}

/// The signs.
#[derive(Clone, Copy, Debug, PartialEq, Eq)]
pub enum Sign {
    /// `;`
    Semicolon,
    /// `{`
    OpenBrace,
    /// `}`
    CloseBrace,
    /// `(`
    OpenRound,
    /// `)`
    CloseRound,
    /// `[`
    OpenSquare,
    /// `]`
    CloseSquare,
    /// `,`
    Comma,
    /// `=`
    Assign,
    /// `+`
    Plus,
    /// `-`
    Minus,
    /// `*`
    Star,
    /// `/`
    Slash,
    /// `%`
    Percent,
    /// `<<`
    ShiftLeft,
    /// `>>`
    ShiftRight,
    /// `<`
    Less,
    /// `<=`
    LessEqual,
    /// `>`
    Greater,
    /// `>=`
    GreaterEqual,
    /// `==`
    Equal,
    /// `!=`
    NotEqual,
    /// `&`
    Amp,
    /// `^`
    Caret,
    /// `|`
    Bar,
    /// `&&`
    AmpAmp,
    /// `||`
    BarBar,
    /// `~`
    Tilde,
    /// `!`
    Bang,
}
