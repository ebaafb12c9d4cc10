//! Which names of an order may be no agents.
ghost use Rattle.std.specs.Prelude.{◌≡◌, IfOk, map};
ghost use Rattle.psy_slip.specs.Agents.{is_known, names_agent, strangers};

use crate::statement::{Statement, is_among, statement_of};
use psy_base::Memory;
use psy_text::line::cut_line;
use psy_text::word::words_of;
use std::alloc::Global;

/// Those names that no line of a text of a script names. The only error is want of memory.
pub fn strangers<'a>(
    alloc: Global,
    text: &[u8],
    names: &[&'a [u8]],
) -> Result<Vec<&'a [u8]>, Memory>
    ensures { IfOk result (λ found. map (λ w. w.now) found.items ≡ strangers text.now (map (λ w. w.now) names.now)) }
{
    let mut found = Vec::new(alloc);
    let mut rest = names;
    'each: while let [name, more @ ..] = rest {
        if !is_known(alloc, text, name)? {
            found.push(*name)?;
        }
        rest = more;
    }
    Ok(found)
}

// Does some line of a text name this agent?
fn is_known(alloc: Global, text: &[u8], name: &[u8]) -> Result<bool, Memory>
    ensures { IfOk result (λ yes. yes ≡ is_known text.now name.now) }
{
    let mut rest = text;
    'each: while let Some(cut) = cut_line(rest) {
        let words = words_of(alloc, cut.front)?;
        if names_agent(name, words.as_slice()) {
            return Ok(true);
        }
        rest = cut.rest;
    }
    Ok(false)
}

fn names_agent(name: &[u8], words: &[&[u8]]) -> bool
    ensures { result ≡ names_agent name.now (map (λ w. w.now) words.now) }
{
    match words {
        [word, one, more @ ..] => match statement_of(word) {
            Some(Statement::Stall) => name == *one,
            Some(Statement::Order) => is_among(Statement::Order, more, name),
            _ => false,
        },
        _ => false,
    }
}
