//! The names that a program's tokens declare.
ghost use Rattle.std.specs.Prelude.{◌≡◌, IfOk, map};
ghost use Rattle.std.specs.Option.{option_copied};
ghost use Rattle.psy_slip.specs.Declarations.{declared, first_declared, inputs_of, is_like, is_word_kind};

use psy_near::is_near;
use psy_tree::{Kind, Token, Word};
use std::alloc::{AllocError, Global};

/// How a declared name is to be like a name: the same, or nearly so.
#[derive(Clone, Copy, Debug, PartialEq, Eq)]
pub enum How {
    Same,
    Near,
}

/// The name that tokens declare with this word, where they begin with both.
pub fn declared(word: Word, tokens: &[Token]) -> Option<&[u8]>
    ensures { option_copied result ≡ declared word tokens.now }
{
    match tokens {
        [
            first,
            Token {
                kind: Kind::Name(name),
                ..
            },
            ..
        ] if is_word(first, word) => Some(name.bytes()),
        _ => None,
    }
}

fn is_word(token: &Token, word: Word) -> bool
    ensures { result ≡ is_word_kind token.now.kind word }
{
    matches!(token.kind, Kind::Word(here) if here == word)
}

fn is_like(how: How, declared: Option<&[u8]>, name: &[u8]) -> bool
    ensures { result ≡ is_like how (option_copied declared.entry) name.now }
{
    match (how, declared) {
        (_, None) => false,
        (How::Same, Some(other)) => name == other,
        (How::Near, Some(other)) => is_near(name, other),
    }
}

/// The first name declared with this word that is like this one.
pub fn first_declared<'a>(
    how: How,
    word: Word,
    name: &[u8],
    tokens: &'a [Token],
) -> Option<&'a [u8]>
    ensures { option_copied result ≡ first_declared how word name.now tokens.now }
{
    let mut rest = tokens;
    'each: while let [_, more @ ..] = rest {
        let here = declared(word, rest);
        if is_like(how, here, name) {
            return here;
        }
        rest = more;
    }
    None
}

/// The inputs that the program declares, in the order of their declarations.
pub fn inputs_of<'a>(alloc: Global, tokens: &'a [Token]) -> Result<Vec<&'a [u8]>, AllocError>
    ensures { IfOk result (λ names. map (λ w. w.now) names.items ≡ inputs_of tokens.now) }
{
    let mut names = Vec::new(alloc);
    let mut rest = tokens;
    'each: while let [_, more @ ..] = rest {
        if let Some(name) = declared(Word::Input, rest) {
            names.push(name)?;
        }
        rest = more;
    }
    Ok(names)
}
