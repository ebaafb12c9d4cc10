//! How single tokens are read.
ghost use Rattle.std.specs.Prelude.{◌≡◌, [], ◌∷◌, length, MatchOption};
ghost use Rattle.psy_parse.specs.Reading.{Gives, Finds, left, name_at, number_at, word_at, sign_at, after_word, after_sign, after_number};
ghost use Rattle.psy_parse.specs.Reading.{after_type, unary_at_front, binary_at_front, is_end, optional_at};
ghost use Rattle.psy_tree.specs.Grammar.{type_of, unary_of, binary_of};

use crate::cursor::Cursor;
use crate::fault::Failure;
use psy_arith::{Op1, Op2, Width};
use psy_base::Text;
use psy_tree::{Kind, Lit, Name, Sign, Word};
use std::alloc::Global;

/// The token that stands here, and what is behind it.
fn first<'a>(cursor: Cursor<'a>) -> Option<(&'a Kind, Cursor<'a>)>
    ensures { MatchOption result (left cursor.entry ≡ []) (λ x. left cursor.entry ≡ (cursor.entry.number, x.0.now) ∷ left x.1) }
{
    let [first, rest @ ..] = cursor.rest else {
        return None;
    };
    let number = cursor.number + 1;
    Some((&first.kind, Cursor { rest, number }))
}

/// Reading can't go on here.
#[tactic(auto, using(crate::proofs::Numbers::length_of_numbered))]
pub fn stuck(cursor: Cursor) -> Failure
    ensures { result ≡ Failure.Stuck (length (left cursor.entry)) }
{
    Failure::Stuck(cursor.rest.len())
}

/// The name that stands here.
#[tactic(auto, unfolding(crate::specs::Reading::name_at))]
pub fn name<'a>(alloc: Global, cursor: Cursor<'a>) -> Result<(Name, Cursor<'a>), Failure>
    ensures { Gives (λ x. (x.0, left x.1)) result (name_at (left cursor.entry)) }
{
    let Some((kind, rest)) = first(cursor) else {
        return Err(stuck(cursor));
    };
    let Kind::Name(text) = kind else {
        return Err(stuck(cursor));
    };
    let text = Text::from_bytes(alloc, text.bytes())?;
    let name = Name {
        text,
        token: cursor.number,
    };
    Ok((name, rest))
}

/// What is behind the number that stands here, if one does.
#[tactic(auto, unfolding(crate::specs::Reading::after_number))]
pub fn after_number<'a>(cursor: Cursor<'a>) -> Option<(Lit, Cursor<'a>)>
    ensures { Finds (λ x. (x.0, left x.1)) result (after_number (left cursor.entry)) }
{
    let Some((kind, rest)) = first(cursor) else {
        return None;
    };
    let Kind::Number(value) = kind else {
        return None;
    };
    let lit = Lit {
        value: *value,
        token: cursor.number,
    };
    Some((lit, rest))
}

/// The number that stands here.
#[tactic(auto, unfolding(crate::specs::Reading::number_at))]
pub fn number<'a>(cursor: Cursor<'a>) -> Result<(Lit, Cursor<'a>), Failure>
    ensures { Gives (λ x. (x.0, left x.1)) result (number_at (left cursor.entry)) }
{
    after_number(cursor).ok_or(stuck(cursor))
}

/// The number of the word that stands here and what is behind it, if it is this one.
#[tactic(auto, unfolding(crate::specs::Reading::after_word))]
pub fn after_word<'a>(cursor: Cursor<'a>, word: Word) -> Option<(u32, Cursor<'a>)>
    ensures { Finds (λ x. (x.0, left x.1)) result (after_word word (left cursor.entry)) }
{
    let Some((kind, rest)) = first(cursor) else {
        return None;
    };
    let Kind::Word(here) = kind else {
        return None;
    };
    if *here != word {
        return None;
    }
    Some((cursor.number, rest))
}

/// The number of this word, which has to stand here.
#[tactic(auto, unfolding(crate::specs::Reading::word_at))]
pub fn word<'a>(cursor: Cursor<'a>, word: Word) -> Result<(u32, Cursor<'a>), Failure>
    ensures { Gives (λ x. (x.0, left x.1)) result (word_at word (left cursor.entry)) }
{
    after_word(cursor, word).ok_or(stuck(cursor))
}

/// What is behind this sign, if it stands here.
#[tactic(auto, unfolding(crate::specs::Reading::after_sign))]
pub fn after_sign<'a>(cursor: Cursor<'a>, sign: Sign) -> Option<Cursor<'a>>
    ensures { Finds left result (after_sign sign (left cursor.entry)) }
{
    let Some((kind, rest)) = first(cursor) else {
        return None;
    };
    let Kind::Sign(here) = kind else {
        return None;
    };
    if *here != sign {
        return None;
    }
    Some(rest)
}

/// What is behind this sign, which has to stand here.
#[tactic(auto, unfolding(crate::specs::Reading::sign_at))]
pub fn sign<'a>(cursor: Cursor<'a>, sign: Sign) -> Result<Cursor<'a>, Failure>
    ensures { Gives left result (sign_at sign (left cursor.entry)) }
{
    after_sign(cursor, sign).ok_or(stuck(cursor))
}

/// The type that the word names which stands here, if one does, and what is behind it.
#[tactic(auto, unfolding(crate::specs::Reading::after_type))]
pub fn after_type<'a>(cursor: Cursor<'a>) -> Option<(Width, Cursor<'a>)>
    ensures { Finds (λ x. (x.0, left x.1)) result (after_type (left cursor.entry)) }
{
    let Some((kind, rest)) = first(cursor) else {
        return None;
    };
    let Kind::Word(here) = kind else {
        return None;
    };
    let width = type_of(*here)?;
    Some((width, rest))
}

/// The operator before an operand that stands here, if one does, and what is behind it.
#[tactic(auto, unfolding(crate::specs::Reading::unary_at_front))]
pub fn unary_operator<'a>(cursor: Cursor<'a>) -> Option<(Op1, Cursor<'a>)>
    ensures { Finds (λ x. (x.0, left x.1)) result (unary_at_front (left cursor.entry)) }
{
    let Some((kind, rest)) = first(cursor) else {
        return None;
    };
    let Kind::Sign(here) = kind else {
        return None;
    };
    let op = unary_of(*here)?;
    Some((op, rest))
}

/// The operator between two operands that stands here, if one of a level below this number does,
/// with its level, and what is behind it.
#[tactic(auto, unfolding(crate::specs::Reading::binary_at_front))]
pub fn binary_operator<'a>(cursor: Cursor<'a>, level: u32) -> Option<(u32, Op2, Cursor<'a>)>
    ensures { Finds (λ x. (x.0, x.1, left x.2)) result (binary_at_front level (left cursor.entry)) }
{
    let Some((kind, rest)) = first(cursor) else {
        return None;
    };
    let Kind::Sign(here) = kind else {
        return None;
    };
    let (own, op) = binary_of(*here)?;
    if level <= own {
        return None;
    }
    Some((own, op, rest))
}

/// The type that this word names.
pub fn type_of(word: Word) -> Option<Width>
    ensures { result ≡ type_of word }
{
    match word {
        Word::Int | Word::Int32 => Some(Width::W32),
        Word::Int8 => Some(Width::W8),
        Word::Int16 => Some(Width::W16),
        Word::Int64 => Some(Width::W64),
        _ => None,
    }
}

/// The operator before an operand that this sign is.
pub fn unary_of(sign: Sign) -> Option<Op1>
    ensures { result ≡ unary_of sign }
{
    match sign {
        Sign::Minus => Some(Op1::Neg),
        Sign::Tilde => Some(Op1::Flip),
        Sign::Bang => Some(Op1::Not),
        _ => None,
    }
}

/// The operator between two operands that this sign is, and its level, of which 0 is the tightest.
pub fn binary_of(sign: Sign) -> Option<(u32, Op2)>
    ensures { result ≡ binary_of sign }
{
    match sign {
        Sign::Star => Some((0, Op2::Mul)),
        Sign::Slash => Some((0, Op2::Div)),
        Sign::Percent => Some((0, Op2::Rem)),
        Sign::Plus => Some((1, Op2::Add)),
        Sign::Minus => Some((1, Op2::Sub)),
        Sign::ShiftLeft => Some((2, Op2::Shl)),
        Sign::ShiftRight => Some((2, Op2::Shr)),
        Sign::Less => Some((3, Op2::Lt)),
        Sign::LessEqual => Some((3, Op2::Le)),
        Sign::Greater => Some((3, Op2::Gt)),
        Sign::GreaterEqual => Some((3, Op2::Ge)),
        Sign::Equal => Some((4, Op2::Eq)),
        Sign::NotEqual => Some((4, Op2::Ne)),
        Sign::Amp => Some((5, Op2::And)),
        Sign::Caret => Some((6, Op2::Xor)),
        Sign::Bar => Some((7, Op2::Or)),
        Sign::AmpAmp => Some((8, Op2::AndAnd)),
        Sign::BarBar => Some((9, Op2::OrOr)),
        _ => None,
    }
}

/// Are no tokens left?
#[tactic(auto, unfolding(crate::specs::Reading::is_end))]
pub fn at_end(cursor: Cursor) -> bool
    ensures { result ≡ is_end (left cursor.entry) }
{
    first(cursor).is_none()
}

/// The number behind this word, if the word stands here.
#[tactic(auto, unfolding(crate::specs::Reading::optional_at))]
pub fn optional_number<'a>(
    cursor: Cursor<'a>,
    word: Word,
) -> Result<(Option<Lit>, Cursor<'a>), Failure>
    ensures { Gives (λ x. (x.0, left x.1)) result (optional_at word (left cursor.entry)) }
{
    let Some((_, rest)) = after_word(cursor, word) else {
        return Ok((None, cursor));
    };
    let (lit, rest) = number(rest)?;
    Ok((Some(lit), rest))
}
