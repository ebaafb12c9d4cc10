//! The terminals of the grammar.
ghost use Rattle.std.specs.Prelude.{◌≡◌, IfOk};
ghost use Rattle.psy_expect.specs.Terminals.{stand_in, terminal_of};

use psy_base::{Memory, Text};
use psy_tree::{Kind, Sign, Token, Word};
use std::alloc::Global;

/// A terminal of the grammar: a kind of tokens, in which all names are one, and all numbers.
#[derive(Clone, Copy, Debug, PartialEq, Eq)]
pub enum Terminal {
    Word(Word),
    Name,
    Number,
    Sign(Sign),
}

/// Each terminal once: the reserved words, names, numbers, the signs.
pub const EVERY: [Terminal; 61] = [
    Terminal::Word(Word::Advance),
    Terminal::Word(Word::After),
    Terminal::Word(Word::Agent),
    Terminal::Word(Word::Body),
    Terminal::Word(Word::Budget),
    Terminal::Word(Word::Clock),
    Terminal::Word(Word::Depth),
    Terminal::Word(Word::Else),
    Terminal::Word(Word::If),
    Terminal::Word(Word::Input),
    Terminal::Word(Word::Int),
    Terminal::Word(Word::Int8),
    Terminal::Word(Word::Int16),
    Terminal::Word(Word::Int32),
    Terminal::Word(Word::Int64),
    Terminal::Word(Word::Keep),
    Terminal::Word(Word::Max),
    Terminal::Word(Word::Of),
    Terminal::Word(Word::On),
    Terminal::Word(Word::Past),
    Terminal::Word(Word::Processor),
    Terminal::Word(Word::Ready),
    Terminal::Word(Word::Return),
    Terminal::Word(Word::Send),
    Terminal::Word(Word::Stream),
    Terminal::Word(Word::Take),
    Terminal::Word(Word::Temporal),
    Terminal::Word(Word::Tick),
    Terminal::Word(Word::To),
    Terminal::Word(Word::While),
    Terminal::Name,
    Terminal::Number,
    Terminal::Sign(Sign::Semicolon),
    Terminal::Sign(Sign::OpenBrace),
    Terminal::Sign(Sign::CloseBrace),
    Terminal::Sign(Sign::OpenRound),
    Terminal::Sign(Sign::CloseRound),
    Terminal::Sign(Sign::OpenSquare),
    Terminal::Sign(Sign::CloseSquare),
    Terminal::Sign(Sign::Comma),
    Terminal::Sign(Sign::Assign),
    Terminal::Sign(Sign::Plus),
    Terminal::Sign(Sign::Minus),
    Terminal::Sign(Sign::Star),
    Terminal::Sign(Sign::Slash),
    Terminal::Sign(Sign::Percent),
    Terminal::Sign(Sign::ShiftLeft),
    Terminal::Sign(Sign::ShiftRight),
    Terminal::Sign(Sign::Less),
    Terminal::Sign(Sign::LessEqual),
    Terminal::Sign(Sign::Greater),
    Terminal::Sign(Sign::GreaterEqual),
    Terminal::Sign(Sign::Equal),
    Terminal::Sign(Sign::NotEqual),
    Terminal::Sign(Sign::Amp),
    Terminal::Sign(Sign::Caret),
    Terminal::Sign(Sign::Bar),
    Terminal::Sign(Sign::AmpAmp),
    Terminal::Sign(Sign::BarBar),
    Terminal::Sign(Sign::Tilde),
    Terminal::Sign(Sign::Bang),
];

/// A token of this terminal: the name `x` for any name, and 1 for any number. The only error is want of memory.
pub fn token_of(alloc: Global, terminal: Terminal) -> Result<Token, Memory>
    ensures is { IfOk result (λ token. terminal_of token.kind ≡ terminal) }
    ensures token { IfOk result (λ token. token ≡ stand_in terminal) }
{
    let kind = match terminal {
        Terminal::Word(word) => Kind::Word(word),
        Terminal::Name => Kind::Name(Text::from_bytes(alloc, b"x")?),
        Terminal::Number => Kind::Number(1),
        Terminal::Sign(sign) => Kind::Sign(sign),
    };
    Ok(Token { place: 0, kind })
}

/// The terminal that a token of this kind is.
pub fn terminal_of(kind: &Kind) -> Terminal
    ensures { result ≡ terminal_of kind.now }
{
    match kind {
        Kind::Word(word) => Terminal::Word(*word),
        Kind::Name(_) => Terminal::Name,
        Kind::Number(_) => Terminal::Number,
        Kind::Sign(sign) => Terminal::Sign(*sign),
    }
}
