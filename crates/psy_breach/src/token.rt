//! What single tokens are.
ghost use Rattle.std.specs.Prelude.{◌≡◌};
ghost use Rattle.std.specs.Option.{option_copied};
ghost use Rattle.psy_breach.specs.Kinds.{before, is_sign, is_word, name_at, number_at};

use psy_tree::{Kind, Sign, Token, Word};

/// Is it there, and this reserved word?
pub fn is_word(token: Option<&Token>, word: Word) -> bool
    ensures { result ≡ is_word (option_copied token.entry) word }
{
    match token {
        Some(
            Token {
                kind: Kind::Word(here),
                ..
            },
        ) => *here == word,
        _ => false,
    }
}

/// Is it there, and this sign?
pub fn is_sign(token: Option<&Token>, sign: Sign) -> bool
    ensures { result ≡ is_sign (option_copied token.entry) sign }
{
    match token {
        Some(
            Token {
                kind: Kind::Sign(here),
                ..
            },
        ) => *here == sign,
        _ => false,
    }
}

/// The name that it is; no bytes where it is none.
pub fn name_at(token: Option<&Token>) -> &[u8]
    ensures { result.now ≡ name_at (option_copied token.entry) }
{
    match token {
        Some(
            Token {
                kind: Kind::Name(text),
                ..
            },
        ) => text.bytes(),
        _ => b"",
    }
}

/// The number that it is.
pub fn number_at(token: Option<&Token>) -> Option<u32>
    ensures { result ≡ number_at (option_copied token.entry) }
{
    match token {
        Some(
            Token {
                kind: Kind::Number(value),
                ..
            },
        ) => Some(*value),
        _ => None,
    }
}

/// The token of that number from the end of the tokens, counted from 1.
pub fn before(front: &[Token], number: usize) -> Option<&Token>
    ensures { option_copied result ≡ before front.now number }
{
    if number <= front.len() {
        front.get(front.len() - number)
    } else {
        None
    }
}
