//! What the program tells of a line of inputs or of a script.
ghost use Rattle.std.specs.Prelude.{◌≡◌, ◌⊎◌, ◌≤◌, IfOk, length, map};
ghost use Rattle.psy_base.specs.declared.limits.TheConstants.{FILE_BYTES};
ghost use Rattle.psy_where.specs.declared.fault.WhereFault.{WhereFault};
ghost use Rattle.psy_where.specs.Besides.{HasNoTokens, IsBeside, beside_of};
ghost use Rattle.psy_where.specs.Explained.{IsBeyond};
ghost use Rattle.psy_where.specs.Refusals.{IsNoRefusal};

use crate::fault::WhereFault;
use crate::place::place;
use crate::recall::{What, read_refusal};
use psy_base::Memory;
use psy_slip::{File, beside_hint};
use psy_spot::spot_at;
use psy_text::line::without_return;
use psy_text::word::words_of;
use psy_token::lex;
use psy_tree::Token;
use std::alloc::Global;

/// What a program of at most 262,144 bytes tells of the line of inputs or of a script to which `line`, with which psyc refused, points in a text
/// of at most 262,144 bytes: lines with a name that may be meant, or with the agents that an order leaves out; no bytes where it tells nothing.
/// `NoRefusal` only where the line is no refusal of a text; `Beyond` only where the text has no such place, or the program can't be cut into tokens.
pub fn beside(
    alloc: Global,
    program: &[u8],
    text: &[u8],
    line: &[u8],
) -> Result<Vec<u8>, WhereFault>
    requires program { length program.now ≤ FILE_BYTES }
    requires text { length text.now ≤ FILE_BYTES }
    ensures told { IfOk result (λ told. IsBeside program.now text.now line.now told.items) }
    ensures refusal { result ≡ Err WhereFault.NoRefusal → IsNoRefusal line.now }
    ensures beyond { result ≡ Err WhereFault.Beyond → IsBeyond text.now line.now ⊎ HasNoTokens program.now }
{
    let refusal = match read_refusal(alloc, line) {
        Ok(told) => told.refusal,
        Err(fault) => return Err(fault),
    };
    let place = place(alloc, refusal.what, text, refusal.at)?;
    let tokens = lex(alloc, program)?;
    let said = without_return(spot_at(text, place).behind);
    let words = words_of(alloc, said)?;
    let told = beside_of(
        alloc,
        refusal.what,
        refusal.number,
        words.as_slice(),
        tokens.as_slice(),
    )?;
    Ok(told)
}

fn beside_of(
    alloc: Global,
    what: What,
    number: u32,
    words: &[&[u8]],
    tokens: &[Token],
) -> Result<Vec<u8>, Memory>
    ensures { IfOk result (λ told. told.items ≡ beside_of what number (map (λ w. w.now) words.now) tokens.now) }
{
    match what {
        What::Inputs => beside_hint(alloc, File::Inputs, number, words, tokens),
        What::Script => beside_hint(alloc, File::Script, number, words, tokens),
        What::Lex | What::Parse | What::Rule => Ok(Vec::new(alloc)),
    }
}
