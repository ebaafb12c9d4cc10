//! What stands around a place among tokens.
ghost use Rattle.std.specs.Prelude.{◌≡◌, ◌≤◌, ◌-◌, length, slice_get};
ghost use Rattle.std.specs.List.{suffix_len};
ghost use Rattle.std.specs.Option.{option_copied};
ghost use Rattle.psy_expect.specs.Arounds.{around, around_of, but_last, foreign_at, is_joined, is_sign_within, is_within};
ghost use Rattle.psy_expect.specs.Arounds.{last_token, name_at, name_in, small_at, starter_at, terminal_at};

use crate::foreign::{Foreign, foreign_of, small_of};
use crate::terminal::{Terminal, terminal_of};
use psy_tree::{Kind, Sign, Token};

/// What stands at a place among tokens, before it and behind it. Nothing stands there where the tokens end.
#[derive(Clone, Copy, Debug, PartialEq, Eq)]
pub struct Around {
    /// With what the statement, the declaration or the head of a block begins to which the token before the place belongs.
    pub starter: Option<Terminal>,
    /// What stands before that which stands before the place.
    pub earlier: Option<Terminal>,
    pub before: Option<Terminal>,
    pub here: Option<Terminal>,
    pub behind: Option<Terminal>,
    /// What stands behind that.
    pub further: Option<Terminal>,
    /// Does the token before the place begin one byte behind that before it?
    pub is_joined_earlier: bool,
    /// Does the token here begin one byte behind that before it?
    pub is_joined_before: bool,
    /// Does the token behind it begin one byte behind that here?
    pub is_joined_behind: bool,
    /// What word of another language the name three before the place is.
    pub foreign_earliest: Option<Foreign>,
    /// The same of the name two before the place.
    pub foreign_earlier: Option<Foreign>,
    /// The same of the name before the place.
    pub foreign_before: Option<Foreign>,
    /// The same of the name here.
    pub foreign_here: Option<Foreign>,
    /// The reserved word that the name before the place would be in small letters.
    pub small_before: Option<Terminal>,
    /// The same of the name here.
    pub small_here: Option<Terminal>,
}

/// What stands around the place of this number.
pub fn stands_around(tokens: &[Token], at: usize) -> Around
    requires { at ≤ length tokens.now }
    ensures { result ≡ around tokens.now at }
{
    let (front, back) = tokens.split_at(at);
    around_of(
        starter_at(front),
        last_of(but_last(but_last(front))),
        last_of(but_last(front)),
        last_of(front),
        token_at(back, 0),
        token_at(back, 1),
        token_at(back, 2),
    )
}

// What stands around a place, by the tokens there.
#[tactic(auto, unfolding(crate::specs::Arounds::around_of))]
fn around_of(
    starter: Option<Terminal>,
    earliest: Option<&Token>,
    earlier: Option<&Token>,
    before: Option<&Token>,
    here: Option<&Token>,
    behind: Option<&Token>,
    further: Option<&Token>,
) -> Around
    ensures { result ≡ around_of starter (option_copied earliest.entry) (option_copied earlier.entry) (option_copied before.entry) (option_copied here.entry)
        (option_copied behind.entry) (option_copied further.entry) }
{
    Around {
        starter,
        earlier: terminal_at(earlier),
        before: terminal_at(before),
        here: terminal_at(here),
        behind: terminal_at(behind),
        further: terminal_at(further),
        is_joined_earlier: is_joined(earlier, before),
        is_joined_before: is_joined(before, here),
        is_joined_behind: is_joined(here, behind),
        foreign_earliest: foreign_at(earliest),
        foreign_earlier: foreign_at(earlier),
        foreign_before: foreign_at(before),
        foreign_here: foreign_at(here),
        small_before: small_at(before),
        small_here: small_at(here),
    }
}

// The last of some tokens.
fn last_of(front: &[Token]) -> Option<&Token>
    ensures { option_copied result ≡ last_token front.now }
{
    token_at(front, front.len().saturating_sub(1))
}

// All of them but the last.
fn but_last(front: &[Token]) -> &[Token]
    ensures { result.now ≡ but_last front.now }
{
    let (rest, _) = front.split_at(front.len().saturating_sub(1));
    rest
}

// What word of another language a name is.
fn foreign_at(token: Option<&Token>) -> Option<Foreign>
    ensures { result ≡ foreign_at (option_copied token.entry) }
{
    foreign_of(name_at(token))
}

// The reserved word that a name would be in small letters.
fn small_at(token: Option<&Token>) -> Option<Terminal>
    ensures { result ≡ small_at (option_copied token.entry) }
{
    small_of(name_at(token))
}

// The first of the tokens behind the last `;`, `{` or `}`.
#[tactic(auto, unfolding(crate::specs::Arounds::starter_at))]
fn starter_at(front: &[Token]) -> Option<Terminal>
    ensures { result ≡ starter_at front.now }
{
    terminal_at(token_at(front, start_of(front)))
}

fn token_at(tokens: &[Token], at: usize) -> Option<&Token>
    ensures { option_copied result ≡ slice_get tokens.now at }
{
    tokens.get(at)
}

// How many tokens stand up to the last `;`, `{` or `}`, and with it.
fn start_of(front: &[Token]) -> usize
    ensures { result ≡ length front.now - suffix_len is_within front.now }
{
    let mut start = front.len();
    'back: while start > 0 && is_within(&front[start - 1]) {
        start -= 1;
    }
    start
}

#[tactic(auto, unfolding(crate::specs::Arounds::is_within))]
fn is_within(token: &Token) -> bool
    ensures { result ≡ is_within token.now }
{
    match &token.kind {
        Kind::Sign(sign) => is_sign_within(*sign),
        _ => true,
    }
}

fn is_sign_within(sign: Sign) -> bool
    ensures { result ≡ is_sign_within sign }
{
    match sign {
        Sign::Semicolon | Sign::OpenBrace | Sign::CloseBrace => false,
        _ => true,
    }
}

fn terminal_at(token: Option<&Token>) -> Option<Terminal>
    ensures { result ≡ terminal_at (option_copied token.entry) }
{
    match token {
        Some(token) => Some(terminal_of(&token.kind)),
        None => None,
    }
}

fn is_joined(one: Option<&Token>, next: Option<&Token>) -> bool
    ensures { result ≡ is_joined (option_copied one.entry) (option_copied next.entry) }
{
    match (one, next) {
        (Some(one), Some(next)) => one.place as u64 + 1 == next.place as u64,
        _ => false,
    }
}

// The bytes of a name; none where there is no name.
fn name_at(token: Option<&Token>) -> &[u8]
    ensures { result.now ≡ name_at (option_copied token.entry) }
{
    match token {
        Some(token) => name_in(&token.kind),
        None => b"",
    }
}

fn name_in(kind: &Kind) -> &[u8]
    ensures { result.now ≡ name_in kind.now }
{
    match kind {
        Kind::Name(name) => name.bytes(),
        _ => b"",
    }
}
