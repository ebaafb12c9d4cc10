//! What may be wrong with a text that isn't tokens.

ghost use Rattle.std.specs.Prelude.{◌≡◌};
ghost use Rattle.psy_tree.specs.Faults.{lex_number};

/// The kinds of fault that a text can have, in the order of their numbers.
#[derive(Clone, Copy, Debug, PartialEq, Eq)]
pub enum LexKind {
    /// 1: a byte begins no token, blank or comment, or may not follow the number before it.
    BadByte,
    /// 2: a word has too many bytes.
    LongName,
    /// 3: a number is too great.
    BigLiteral,
    /// 4: a comment has no end.
    OpenComment,
}

impl LexKind {
    /// The number of the kind, from 1 to 4, by which a refusal names it.
    pub fn number(self) -> u32
        ensures { result ≡ lex_number self }
    {
        match self {
            LexKind::BadByte => 1,
            LexKind::LongName => 2,
            LexKind::BigLiteral => 3,
            LexKind::OpenComment => 4,
        }
    }
}
