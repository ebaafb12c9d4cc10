//! The tree of a program's tokens.
ghost use Rattle.std.specs.Prelude.{◌≡◌, ℕ, ◌≤◌, ◌⊎◌, ◌↔◌, length, IfOk, Ok, Err};
ghost use Rattle.psy_tree.specs.declared.raw.Raw.{Raw as tree};
ghost use Rattle.psy_tree.specs.Grammar.{Spells};
ghost use Rattle.psy_tree.specs.Deep.{Deep as deep_at, Shallow};
ghost use Rattle.psy_parse.specs.Fault.{NoTree, AtFault};

use crate::cursor::Cursor;
use crate::deep::first_too_deep;
use crate::fault::{Failure, ParseFault};
use crate::item::text;
use psy_base::limits::FILE_BYTES;
use psy_tree::{Raw, Token};
use std::alloc::Global;

/// The tree of a program's tokens. `Deep` comes before `Syntax`.
pub fn parse(alloc: Global, tokens: &[Token]) -> Result<Raw, ParseFault>
    requires { length tokens.now ≤ FILE_BYTES }
    // The tree has these tokens, and no other tree has them.
    ensures tree { IfOk result (λ raw. Spells raw tokens.now) }
    ensures only { IfOk result (λ raw. (other : tree) → Spells other tokens.now → other ≡ raw) }
    ensures shallow { IfOk result (λ raw. Shallow tokens.now) }
    // Nested too deep is exactly what reaches a measure, at the first token that does.
    ensures deep { (n : ℕ) → ((result ≡ Err (ParseFault.Deep n)) ↔ deep_at tokens.now n) }
    // Not a program is exactly what reaches none and has no tree, and the token is that at fault.
    ensures syntax { (n : ℕ) → result ≡ Err (ParseFault.Syntax n) → Shallow tokens.now × NoTree tokens.now }
    ensures at_fault { (n : ℕ) → result ≡ Err (ParseFault.Syntax n) → AtFault tokens.now n }
    ensures no_tree { Shallow tokens.now → NoTree tokens.now → ((n : ℕ) × (result ≡ Err (ParseFault.Syntax n))) ⊎ (result ≡ Err ParseFault.Memory) }
{
    if let Some(token) = first_too_deep(tokens) {
        return Err(ParseFault::Deep(token));
    }
    let cursor = Cursor {
        rest: tokens,
        number: 0,
    };
    match text(alloc, tokens.len() + 1, cursor) {
        Ok(raw) => Ok(raw),
        Err(Failure::Memory) => Err(ParseFault::Memory),
        Err(Failure::Stuck(left)) => Err(ParseFault::Syntax((tokens.len() - left) as u32)),
    }
}
