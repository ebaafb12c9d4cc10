//! What may stand behind tokens.
ghost use Rattle.std.specs.Prelude.{◌≡◌, ◌<◌, IfOk, OnOk, MatchBool, length};
ghost use Rattle.psy_base.specs.declared.limits.TheConstants.{FILE_BYTES};
ghost use Rattle.psy_expect.specs.Terminals.{MayFollow, Picks};

use crate::terminal::{Terminal, token_of};
use crate::viable::is_front;
use psy_base::{Items, Memory};
use psy_tree::Token;
use std::alloc::Global;

/// Those among these terminals that may stand behind the tokens, which stay as they are: those with which a program goes on that isn't nested too deep there.
/// The only error is want of memory.
pub fn followers(
    alloc: Global,
    front: &mut Items<Token>,
    among: &[Terminal],
) -> Result<Vec<Terminal>, Memory>
    requires { length front.old < FILE_BYTES }
    ensures same { OnOk result (front.new ≡ front.old) }
    ensures picks { IfOk result (λ told. Picks (MayFollow front.old) among.now told.items) }
{
    let mut told = Vec::new(alloc);
    'each: for terminal in among {
        if may_follow(alloc, front, *terminal)? {
            told.push(*terminal)?;
        }
    }
    Ok(told)
}

// May a token of this terminal stand behind the tokens? They stay as they are.
fn may_follow(alloc: Global, front: &mut Items<Token>, terminal: Terminal) -> Result<bool, Memory>
    requires { length front.old < FILE_BYTES }
    ensures same { OnOk result (front.new ≡ front.old) }
    ensures tells { IfOk result (λ yes. MatchBool yes (MayFollow front.old terminal) (MayFollow front.old terminal → ⊥)) }
{
    front.push(token_of(alloc, terminal)?)?;
    let is_front = is_front(alloc, front.as_slice())?;
    front.pop();
    Ok(is_front)
}
