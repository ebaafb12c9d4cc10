//! The pass over the text.
ghost use Rattle.std.specs.Prelude.{◌≡◌, ◌+◌, ◌^◌, ◌<◌, ◌≤◌, IfOk, IfErr, OnOk, IsTrue, List, ℕ, length};
ghost use Rattle.std.specs.List.{prefix_len};
ghost use Rattle.std.specs.Char.{is_ascii_digit};
ghost use Rattle.psy_tree.specs.declared.token.Token.{Token};
ghost use Rattle.psy_tree.specs.Lexemes.{is_in_word};
ghost use Rattle.psy_tree.specs.declared.faults.LexKind.{LexKind as lex_kind};
ghost use Rattle.psy_tree.specs.Faults.{FirstFault};
ghost use Rattle.psy_tree.specs.Tokens.{TokensOf};
ghost use Rattle.psy_token.specs.Answer.{IsFirstFault, GivesTokens, GivesFault};
ghost use Rattle.psy_token.specs.Reading.{Cuts, Gives, with_token, front_of, word_front, number_front, block_front, line_front, sign_front, word_kind, goes_on};

use crate::comment::close_len;
use crate::fault::LexFault;
use crate::number::{decimal_value, number_len};
use crate::scan::is_blank;
use crate::spelling::{reserved, sign_at, sign_spelling};
use psy_base::limits::{FILE_BYTES, WORD_BYTES};
use psy_base::{Items, Memory, Text};
use psy_text::run::{begins_word, is_in_word, line_len, word_len};
use psy_tree::{Kind, LexKind, Token};
use std::alloc::Global;

/// A piece of the text: how many bytes it has, and its token unless it is a blank or a comment.
#[derive(Drop)]
struct Span {
    len: usize,
    kind: Option<Kind>,
}

/// The fault of that kind, with so many bytes before it.
fn fault(kind: LexKind, before: usize) -> LexFault
    requires { before < 2 ^ 32 }
    ensures { result ≡ LexFault.Lexical kind before }
{
    LexFault::Lexical {
        kind,
        place: before as u32,
    }
}

fn word_kind(alloc: Global, word: &[u8]) -> Result<Kind, Memory>
    ensures { IfOk result (λ kind. kind ≡ word_kind word.now) }
{
    match reserved(word) {
        Some(word) => Ok(Kind::Word(word)),
        None => Ok(Kind::Name(Text::from_bytes(alloc, word)?)),
    }
}

#[tactic(auto, unfolding(crate::specs::Reading::word_front))]
fn word(alloc: Global, rest: &[u8], at: usize) -> Result<Span, LexFault>
    requires room { at + length rest.now < 2 ^ 32 }
    requires first { 0 < prefix_len is_in_word rest.now }
    ensures { Gives at rest.now result (word_front rest.now) }
{
    let len = word_len(rest);
    if len > WORD_BYTES {
        return Err(fault(LexKind::LongName, at));
    }
    let kind = word_kind(alloc, &rest[..len])?;
    Ok(Span {
        len,
        kind: Some(kind),
    })
}

fn goes_on(rest: &[u8]) -> bool
    ensures { result ≡ goes_on rest.now }
{
    match rest {
        [byte, ..] => is_in_word(*byte),
        [] => false,
    }
}

#[tactic(auto, unfolding(crate::specs::Reading::number_front))]
fn number(rest: &[u8], at: usize) -> Result<Span, LexFault>
    requires room { at + length rest.now < 2 ^ 32 }
    requires first { 0 < prefix_len is_ascii_digit rest.now }
    ensures { Gives at rest.now result (number_front rest.now) }
{
    let len = number_len(rest);
    let Some(value) = decimal_value(&rest[..len]) else {
        return Err(fault(LexKind::BigLiteral, at));
    };
    if goes_on(&rest[len..]) {
        return Err(fault(LexKind::BadByte, at + len));
    }
    Ok(Span {
        len,
        kind: Some(Kind::Number(value)),
    })
}

#[tactic(auto, unfolding(crate::specs::Reading::block_front))]
fn block_comment(rest: &[u8], at: usize) -> Result<Span, LexFault>
    requires room { at + length rest.now < 2 ^ 32 }
    requires opened { 2 ≤ length rest.now }
    ensures { Gives at rest.now result (block_front rest.now) }
{
    match close_len(&rest[2..]) {
        Some(len) => Ok(Span {
            len: len + 2,
            kind: None,
        }),
        None => Err(fault(LexKind::OpenComment, at)),
    }
}

#[tactic(auto, unfolding(crate::specs::Reading::line_front))]
fn line_comment(rest: &[u8]) -> Span
    requires opened { 2 ≤ length rest.now }
    ensures { Cuts rest.now result (line_front rest.now) }
{
    Span {
        len: line_len(&rest[2..]) + 2,
        kind: None,
    }
}

#[tactic(auto, unfolding(crate::specs::Reading::sign_front))]
fn sign(rest: &[u8], at: usize) -> Result<Span, LexFault>
    requires room { at + length rest.now < 2 ^ 32 }
    ensures { Gives at rest.now result (sign_front rest.now) }
{
    match sign_at(rest) {
        Some(sign) => Ok(Span {
            len: sign_spelling(sign).len(),
            kind: Some(Kind::Sign(sign)),
        }),
        None => Err(fault(LexKind::BadByte, at)),
    }
}

/// The piece at the front of the rest of a text, with `at` bytes before it.
#[tactic(auto, unfolding(crate::specs::Reading::front_of))]
fn front(alloc: Global, rest: &[u8], at: usize) -> Result<Span, LexFault>
    requires room { at + length rest.now < 2 ^ 32 }
    requires more { 0 < length rest.now }
    ensures { Gives at rest.now result (front_of rest.now) }
{
    let first = rest[0];
    if is_blank(first) {
        return Ok(Span { len: 1, kind: None });
    }
    if begins_word(first) {
        return word(alloc, rest, at);
    }
    if first.is_ascii_digit() {
        return number(rest, at);
    }
    if rest.starts_with(b"//") {
        return Ok(line_comment(rest));
    }
    if rest.starts_with(b"/*") {
        return block_comment(rest, at);
    }
    sign(rest, at)
}

fn add(tokens: &mut Items<Token>, place: u32, kind: Option<Kind>) -> Result<(), LexFault>
    ensures ok { OnOk result (tokens.new ≡ with_token tokens.old place kind) }
    ensures err { IfErr result (λ fault. fault ≡ LexFault.Memory) }
{
    match kind {
        Some(kind) => Ok(tokens.push(Token { place, kind })?),
        None => Ok(()),
    }
}

/// The tokens of a text of at most 262,144 bytes, or its first fault. The only other error is want
/// of memory.
pub fn lex(alloc: Global, text: &[u8]) -> Result<Items<Token>, LexFault>
    requires { length text.now ≤ FILE_BYTES }
    // What is answered holds of the text.
    ensures tokens { IfOk result (λ tokens. TokensOf text.now tokens) }
    ensures fault { IfErr result (λ fault. IsFirstFault text.now fault) }
    ensures few { IfOk result (λ tokens. length tokens ≤ length text.now) }

    // What holds of the text is answered, unless memory runs out.
    ensures all_tokens { (tokens : List Token) → TokensOf text.now tokens → GivesTokens result tokens }
    ensures all_faults { (kind : lex_kind) (place : ℕ) → FirstFault text.now kind place → GivesFault result (LexFault.Lexical kind place) }
{
    let mut tokens = Items::new(alloc);
    let mut at = 0;
    while at < text.len() {
        let Span { len, kind } = front(alloc, &text[at..], at)?;
        add(&mut tokens, at as u32, kind)?;
        at += len;
    }
    Ok(tokens)
}
