//! What is told of a loop with an `advance`.
ghost use Rattle.std.specs.Prelude.{◌≡◌};
ghost use Rattle.psy_breach.specs.Loops.{is_bound, is_bounded, mixed_told};

use crate::declared::{Sort, is_function};
use crate::sentences as words;
use crate::token::{is_sign, is_word};
use psy_tree::{Sign, Token, Word};

/// What is told of a loop that has an `advance`, in what is declared so: that it stands in a function, or else that it is bounded, or has a way round that
/// takes no time.
pub fn mixed_told(here: Option<Sort>, back: &[Token]) -> &'static [u8]
    ensures { result.now ≡ mixed_told here back.now }
{
    if is_function(here) {
        words::TIMELESS
    } else if is_bounded(back) {
        words::BOUNDED
    } else {
        words::ROUNDS
    }
}

// Has the loop that begins here a `max`?
fn is_bounded(back: &[Token]) -> bool
    ensures { result ≡ is_bounded back.now }
{
    let mut rest = back;
    'each: while let [token, more @ ..] = rest {
        if is_bound(token) {
            return is_word(Some(token), Word::Max);
        }
        rest = more;
    }
    false
}

// Is it `max`, or the bracket behind which the statements of a loop stand?
fn is_bound(token: &Token) -> bool
    ensures { result ≡ is_bound token.now }
{
    is_word(Some(token), Word::Max) || is_sign(Some(token), Sign::OpenBrace)
}
