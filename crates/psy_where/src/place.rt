//! Where a byte, a token or a line is in a text.
ghost use Rattle.std.specs.Prelude.{◌≡◌, ◌<◌, ◌≤◌, ℕ, IfOk, IfSome, length};
ghost use Rattle.psy_base.specs.declared.limits.TheConstants.{FILE_BYTES};
ghost use Rattle.psy_where.specs.declared.fault.WhereFault.{WhereFault};
ghost use Rattle.psy_where.specs.declared.recall.What.{What};
ghost use Rattle.psy_where.specs.Places.{IsStart, IsTokenPlace, IsLinePlace};
ghost use Rattle.psy_where.specs.Refusals.{IsPlaceOf};

use crate::fault::WhereFault;
use crate::recall::What;
use psy_text::run::line_len;
use psy_token::lex;
use psy_tree::Token;
use std::alloc::Global;

/// How many bytes of a text of at most 262,144 bytes stand before the place that a refusal tells; `Beyond` exactly where the text has no such place.
pub fn place(alloc: Global, what: What, text: &[u8], number: u32) -> Result<usize, WhereFault>
    requires { length text.now ≤ FILE_BYTES }
    ensures place { IfOk result (λ place. IsPlaceOf what text.now number place) }
    ensures within { IfOk result (λ place. place ≤ length text.now) }
    ensures beyond { result ≡ Err WhereFault.Beyond → (place : ℕ) → IsPlaceOf what text.now number place → ⊥ }
    ensures refusal { result ≡ Err WhereFault.NoRefusal → ⊥ }
{
    match what {
        What::Lex => byte_place(text, number as usize),
        What::Parse | What::Rule => token_place(alloc, text, number as usize),
        What::Inputs | What::Script => line_place(text, number as usize),
    }
}

fn byte_place(text: &[u8], number: usize) -> Result<usize, WhereFault>
    ensures place { IfOk result (λ place. IsPlaceOf What.Lex text.now number place) }
    ensures within { IfOk result (λ place. place ≤ length text.now) }
    ensures beyond { result ≡ Err WhereFault.Beyond → (place : ℕ) → IsPlaceOf What.Lex text.now number place → ⊥ }
    ensures refusal { result ≡ Err WhereFault.NoRefusal → ⊥ }
{
    if number < text.len() {
        Ok(number)
    } else {
        Err(WhereFault::Beyond)
    }
}

fn token_place(alloc: Global, text: &[u8], number: usize) -> Result<usize, WhereFault>
    requires { length text.now ≤ FILE_BYTES }
    ensures place { IfOk result (λ place. IsTokenPlace text.now number place) }
    ensures within { IfOk result (λ place. place ≤ length text.now) }
    ensures beyond { result ≡ Err WhereFault.Beyond → (place : ℕ) → IsTokenPlace text.now number place → ⊥ }
    ensures refusal { result ≡ Err WhereFault.NoRefusal → ⊥ }
{
    let tokens = lex(alloc, text)?;
    match start_of(tokens.as_slice(), text.len(), number) {
        Some(place) => Ok(place),
        None => Err(WhereFault::Beyond),
    }
}

// Where the token of this number begins, in a text that ends there.
fn start_of(tokens: &[Token], end: usize, number: usize) -> Option<usize>
    ensures some { IfSome result (λ place. IsStart tokens.now end number place) }
    ensures none { result ≡ None → length tokens.now < number }
{
    if number == tokens.len() {
        return Some(end);
    }
    Some(tokens.get(number)?.place as usize)
}

// Where the line of this number, counted from 1, begins.
fn line_place(text: &[u8], number: usize) -> Result<usize, WhereFault>
    ensures place { IfOk result (λ place. IsLinePlace text.now number place) }
    ensures within { IfOk result (λ place. place ≤ length text.now) }
    ensures beyond { result ≡ Err WhereFault.Beyond → (place : ℕ) → IsLinePlace text.now number place → ⊥ }
    ensures refusal { result ≡ Err WhereFault.NoRefusal → ⊥ }
{
    let mut line = 1;
    let mut place = 0;
    while place < text.len() {
        if line == number {
            return Ok(place);
        }
        place += line_len(&text[place..]) + 1;
        line += 1;
    }
    Err(WhereFault::Beyond)
}
