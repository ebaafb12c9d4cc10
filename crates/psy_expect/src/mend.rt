//! What mends a place among tokens: a token that is put before it, or that is left out.
ghost use Rattle.std.specs.Prelude.{◌≡◌, ◌+◌, ◌++◌, ◌∷◌, [], ◌≤◌, IfOk, OnOk, MatchBool, length, map, option_to_list, take};
ghost use Rattle.psy_base.specs.declared.limits.TheConstants.{FILE_BYTES};
ghost use Rattle.psy_expect.specs.Terminals.{GoesOn, Picks, stand_in};
ghost use Rattle.psy_expect.specs.Mending.{Mends, ahead_of};

use crate::around::Around;
use crate::terminal::{Terminal, token_of};
use crate::viable::is_front;
use psy_base::{Items, Memory};
use psy_tree::Token;
use std::alloc::{AllocError, Global};

/// Those of some terminals that mend a place, by the tokens before it: with one of them put there the program goes on with the token at the place and the one
/// behind that. The only error is want of memory.
pub fn menders(
    alloc: Global,
    front: &mut Items<Token>,
    around: Around,
    among: &[Terminal],
) -> Result<Vec<Terminal>, Memory>
    requires { length front.old + 3 ≤ FILE_BYTES }
    ensures same { OnOk result (front.new ≡ front.old) }
    ensures picks { IfOk result (λ mends. Picks (Mends front.old around) among.now mends.items) }
{
    let mut mends = Vec::new(alloc);
    'each: for terminal in among {
        if mends_it(alloc, front, around, *terminal)? {
            mends.push(*terminal)?;
        }
    }
    Ok(mends)
}

// Does the terminal mend the place?
fn mends_it(
    alloc: Global,
    front: &mut Items<Token>,
    around: Around,
    terminal: Terminal,
) -> Result<bool, Memory>
    requires { length front.old + 3 ≤ FILE_BYTES }
    ensures same { OnOk result (front.new ≡ front.old) }
    ensures tells { IfOk result (λ yes. MatchBool yes (Mends front.old around terminal) (Mends front.old around terminal → ⊥)) }
{
    let ahead = ahead_of(alloc, terminal, around.here, around.behind)?;
    goes_on(alloc, front, ahead.as_slice())
}

// A terminal, and those of a token at a place and of the one behind it.
fn ahead_of(
    alloc: Global,
    terminal: Terminal,
    here: Option<Terminal>,
    behind: Option<Terminal>,
) -> Result<Vec<Terminal>, AllocError>
    ensures ahead { IfOk result (λ ahead. ahead.items ≡ ahead_of terminal here behind) }
    ensures few { IfOk result (λ ahead. length ahead.items ≤ 3) }
{
    match (here, behind) {
        (Some(here), Some(behind)) => Vec::from_slice(alloc, &[terminal, here, behind]),
        (Some(here), None) => Vec::from_slice(alloc, &[terminal, here]),
        (None, _) => Vec::from_slice(alloc, &[terminal]),
    }
}

/// Does the program go on with the token behind a place, where the one at the place is left out? The only error is want of memory.
pub fn goes_on_behind(
    alloc: Global,
    front: &mut Items<Token>,
    around: Around,
) -> Result<bool, Memory>
    requires { length front.old + 3 ≤ FILE_BYTES }
    ensures same { OnOk result (front.new ≡ front.old) }
    ensures tells { IfOk result (λ yes. MatchBool yes (GoesOn front.old (option_to_list around.behind)) (GoesOn front.old (option_to_list around.behind) → ⊥)) }
{
    let ahead = listed(alloc, around.behind)?;
    goes_on(alloc, front, ahead.as_slice())
}

fn listed(alloc: Global, terminal: Option<Terminal>) -> Result<Vec<Terminal>, AllocError>
    ensures ahead { IfOk result (λ ahead. ahead.items ≡ option_to_list terminal) }
    ensures few { IfOk result (λ ahead. length ahead.items ≤ 3) }
{
    match terminal {
        Some(terminal) => Vec::from_slice(alloc, &[terminal]),
        None => Ok(Vec::new(alloc)),
    }
}

// Are the tokens, with tokens of these terminals behind them, the front of a program?
fn goes_on(alloc: Global, front: &mut Items<Token>, ahead: &[Terminal]) -> Result<bool, Memory>
    requires { length front.old + length ahead.now ≤ FILE_BYTES }
    ensures same { OnOk result (front.new ≡ front.old) }
    ensures tells { IfOk result (λ yes. MatchBool yes (GoesOn front.old ahead.now) (GoesOn front.old ahead.now → ⊥)) }
{
    let many = front.len();
    push_all(alloc, front, ahead)?;
    let is_front = is_front(alloc, front.as_slice())?;
    cut_to(front, many);
    Ok(is_front)
}

fn push_all(alloc: Global, front: &mut Items<Token>, ahead: &[Terminal]) -> Result<(), Memory>
    ensures { OnOk result (front.new ≡ front.old ++ map stand_in ahead.now) }
{
    'each: for terminal in ahead {
        front.push(token_of(alloc, *terminal)?)?;
    }
    Ok(())
}

/// Cuts tokens to the first so many.
pub fn cut_to(front: &mut Items<Token>, many: usize)
    requires { many ≤ length front.old }
    ensures { front.new ≡ take many front.old }
{
    'each: while front.len() > many {
        front.pop();
    }
}
