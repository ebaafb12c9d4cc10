//! Whether tokens are the front of a program.
ghost use Rattle.std.specs.Prelude.{◌≤◌, IfOk, MatchBool, length};
ghost use Rattle.psy_base.specs.declared.limits.TheConstants.{FILE_BYTES};
ghost use Rattle.psy_expect.specs.Terminals.{IsFront};

use psy_base::Memory;
use psy_parse::{ParseFault, parse};
use psy_tree::Token;
use std::alloc::Global;

/// Does a program begin with these tokens, nested too deep at none of them? The only error is want of memory.
pub fn is_front(alloc: Global, tokens: &[Token]) -> Result<bool, Memory>
    requires { length tokens.now ≤ FILE_BYTES }
    ensures { IfOk result (λ yes. MatchBool yes (IsFront tokens.now) (IsFront tokens.now → ⊥)) }
{
    match parse(alloc, tokens) {
        Ok(_) => Ok(true),
        Err(ParseFault::Syntax(token)) => Ok(token as usize == tokens.len()),
        Err(ParseFault::Deep(_)) => Ok(false),
        Err(ParseFault::Memory) => Err(Memory),
    }
}
