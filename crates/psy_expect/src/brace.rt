//! The brace that is open behind tokens.
ghost use Rattle.std.specs.Prelude.{◌≡◌};
ghost use Rattle.psy_expect.specs.Braces.{brace_of, open_brace, sign_brace};

use psy_tree::{Kind, Sign, Token};

/// What a token does to braces.
#[derive(Clone, Copy, Debug, PartialEq, Eq)]
pub enum Brace {
    /// It is a `{`.
    Opens,
    /// It is a `}`.
    Closes,
    /// It is another.
    Neither,
}

/// The place of the innermost `{` that is open behind these tokens.
pub fn open_brace(front: &[Token]) -> Option<u32>
    ensures { result ≡ open_brace front.now }
{
    let mut closed = 0usize;
    let mut at = front.len();
    'back: while at > 0 {
        at -= 1;
        let token = &front[at];
        match brace_of(&token.kind) {
            Brace::Closes => closed += 1,
            Brace::Opens => {
                if closed == 0 {
                    return Some(token.place);
                }
                closed -= 1;
            }
            Brace::Neither => {}
        }
    }
    None
}

/// What a kind of tokens does to braces.
pub fn brace_of(kind: &Kind) -> Brace
    ensures { result ≡ brace_of kind.now }
{
    match kind {
        Kind::Sign(sign) => sign_brace(*sign),
        _ => Brace::Neither,
    }
}

fn sign_brace(sign: Sign) -> Brace
    ensures { result ≡ sign_brace sign }
{
    match sign {
        Sign::OpenBrace => Brace::Opens,
        Sign::CloseBrace => Brace::Closes,
        _ => Brace::Neither,
    }
}
