//! Where a text is nested too deep.
ghost use Rattle.std.specs.Prelude.{◌≡◌, ℕ, ◌<◌, ◌≤◌, List, ◌∷◌, length, MatchOption};
ghost use Rattle.psy_tree.specs.declared.token.Kind.{Kind as kind_of_token};
ghost use Rattle.psy_tree.specs.Deep.{opens, closes, begins_anew, is_operator, bracket_depth, operators_since, Deep, Shallow};

use crate::reader::{binary_of, unary_of};
use psy_base::limits::{BRACKETS, FILE_BYTES, OPERATORS};
use psy_tree::{Kind, Sign, Token};

/// The number of the first token at which a text is too deep.
pub fn first_too_deep(tokens: &[Token]) -> Option<u32>
    requires { length tokens.now ≤ FILE_BYTES }
    ensures { MatchOption result (Shallow tokens.now) (λ n. Deep tokens.now n) }
{
    let mut depth = 0;
    let mut since = 0;
    for (number, token) in tokens.iter().enumerate() {
        depth = depth_after(depth, &token.kind);
        since = operators_after(since, &token.kind);
        if depth == BRACKETS || since == OPERATORS {
            return Some(number as u32);
        }
    }
    None
}

/// The bracket depth after a token, by that before it.
fn depth_after(depth: u32, kind: &Kind) -> u32
    requires { depth < BRACKETS }
    ensures bound { result ≤ BRACKETS }
    ensures depth { (before : List kind_of_token) → bracket_depth before ≡ depth → bracket_depth (kind.now ∷ before) ≡ result }
{
    if opens(kind) {
        depth + 1
    } else if closes(kind) {
        depth.saturating_sub(1)
    } else {
        depth
    }
}

/// The operators since the last `;`, `{` or `}` after a token, by those before it.
fn operators_after(since: u32, kind: &Kind) -> u32
    requires { since < OPERATORS }
    ensures bound { result ≤ OPERATORS }
    ensures since { (before : List kind_of_token) → operators_since before ≡ since → operators_since (kind.now ∷ before) ≡ result }
{
    if begins_anew(kind) {
        0
    } else if is_operator(kind) {
        since + 1
    } else {
        since
    }
}

fn opens(kind: &Kind) -> bool
    ensures { result ≡ opens kind.now }
{
    matches!(
        kind,
        Kind::Sign(Sign::OpenRound | Sign::OpenSquare | Sign::OpenBrace)
    )
}

fn closes(kind: &Kind) -> bool
    ensures { result ≡ closes kind.now }
{
    matches!(
        kind,
        Kind::Sign(Sign::CloseRound | Sign::CloseSquare | Sign::CloseBrace)
    )
}

fn begins_anew(kind: &Kind) -> bool
    ensures { result ≡ begins_anew kind.now }
{
    matches!(
        kind,
        Kind::Sign(Sign::Semicolon | Sign::OpenBrace | Sign::CloseBrace)
    )
}

fn is_operator(kind: &Kind) -> bool
    ensures { result ≡ is_operator kind.now }
{
    match kind {
        Kind::Sign(sign) => unary_of(*sign).is_some() || binary_of(*sign).is_some(),
        _ => false,
    }
}
