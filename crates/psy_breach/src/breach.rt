//! What is told of a token at which a rule is broken.
ghost use Rattle.std.specs.Prelude.{◌≡◌, ◌≤◌, IfOk, drop, length, take};
ghost use Rattle.psy_breach.specs.Breaches.{breach_hint, breach_told};
ghost use Rattle.psy_page.specs.Told.{said};

use crate::declared::{How, last_head, reached, sort_of};
use crate::loops::mixed_told;
use crate::names::{calls_told, first_named, owner_told, receiver_told, unknown_told};
use crate::numbers::{clock_told, deep_told, range_told};
use crate::role::role_of;
use crate::sentences as words;
use crate::token::name_at;
use crate::told::declared;
use crate::wrong::wrong_told;
use psy_base::Memory;
use psy_page::{Told, hint};
use psy_tree::Token;
use std::alloc::Global;

/// A line that tells why the rule of this number is broken at the token of that number, and what to do: of a name, which declaration it has, in which line
/// of the text, and what its place asks for; of a number, its range; of a loop, what it lacks. Nothing where nothing is told. The only error is want of
/// memory.
pub fn breach_hint(
    alloc: Global,
    text: &[u8],
    tokens: &[Token],
    rule: u32,
    at: usize,
) -> Result<Vec<u8>, Memory>
    requires { at ≤ length tokens.now }
    ensures { IfOk result (λ hint. hint.items ≡ breach_hint text.now tokens.now rule at) }
{
    let (front, back) = tokens.split_at(at);
    Ok(hint(alloc, breach_told(text, tokens, front, back, rule))?)
}

fn breach_told<'a>(
    text: &[u8],
    tokens: &'a [Token],
    front: &'a [Token],
    back: &'a [Token],
    rule: u32,
) -> Option<Told<'a>>
    ensures { said result ≡ breach_told text.now tokens.now front.now back.now rule }
{
    let name = name_at(back.first());
    let found = reached(How::Same, name, tokens, front);
    match rule {
        1 => declared(text, name, first_named(front, back), words::TWICE),
        2 => unknown_told(text, tokens, front, back, found),
        3 => wrong_told(text, front, back, found),
        4 => owner_told(name, role_of(front, back), found),
        5 => receiver_told(name, found),
        6 => deep_told(tokens, front),
        7 => Some(Told::Plain(words::ENDLESS)),
        8 => Some(Told::Plain(mixed_told(sort_of(last_head(front)), back))),
        9 => Some(Told::Plain(words::QUIET)),
        10 => calls_told(text, name, last_head(front), found),
        11 => clock_told(back),
        12 => range_told(front),
        _ => None,
    }
}
