//! Terminals in words that people use.
ghost use Rattle.std.specs.Prelude.{◌≡◌, ◌++◌, IfOk, OnOk, codes, map, option_to_list};
ghost use Rattle.psy_expect.specs.Phrases.{behind_first, group_of, listed, own_words, phrase_in, phrase_words, phrases, separator};

use crate::group::{Group, group_of, group_words, lead, same};
use crate::terminal::Terminal;
use psy_base::Memory;
use psy_token::{sign_spelling, word_spelling};
use std::alloc::{AllocError, Global};

/// What is told in words: a whole group of terminals, or one terminal by its own words.
#[derive(Clone, Copy, Debug, PartialEq, Eq)]
pub enum Phrase {
    Whole(Group),
    Own(Terminal),
}

/// The phrases for terminals that may stand somewhere: where all of a group are told, the group is told in the place of the first of
/// them, and else each by its own words. The only error is want of memory.
pub fn phrases(alloc: Global, told: &[Terminal]) -> Result<Vec<Phrase>, Memory>
    ensures { IfOk result (λ found. found.items ≡ phrases told.now) }
{
    let mut found = Vec::new(alloc);
    'each: for terminal in told {
        add(&mut found, phrase_at(told, *terminal))?;
    }
    Ok(found)
}

// Adds the phrase, where there is one.
fn add(found: &mut Vec<Phrase>, phrase: Option<Phrase>) -> Result<(), Memory>
    ensures { OnOk result (found.new.items ≡ found.old.items ++ option_to_list phrase) }
{
    match phrase {
        None => Ok(()),
        Some(phrase) => Ok(found.push(phrase)?),
    }
}

fn phrase_at(told: &[Terminal], terminal: Terminal) -> Option<Phrase>
    ensures { result ≡ phrase_in (group_of told.now terminal) terminal }
{
    match group_of(told, terminal) {
        None => Some(Phrase::Own(terminal)),
        Some(group) => {
            if same(lead(group), terminal) {
                Some(Phrase::Whole(group))
            } else {
                None
            }
        }
    }
}

/// Adds the phrases: `A`, `A or B`, `A, B or C`.
pub fn add_listed(out: &mut Vec<u8>, told: &[Phrase]) -> Result<(), AllocError>
    ensures { OnOk result (out.new.items ≡ out.old.items ++ listed (map phrase_words told.now)) }
{
    match told {
        [] => Ok(()),
        [first, more @ ..] => {
            add_phrase(out, *first)?;
            add_behind(out, more)
        }
    }
}

// Adds the phrases behind the first.
fn add_behind(out: &mut Vec<u8>, more: &[Phrase]) -> Result<(), AllocError>
    ensures { OnOk result (out.new.items ≡ out.old.items ++ behind_first (map phrase_words more.now)) }
{
    let mut left = more;
    'each: while let [next, rest @ ..] = left {
        add_separator(out, rest)?;
        add_phrase(out, *next)?;
        left = rest;
    }
    Ok(())
}

// Adds what stands before a phrase, by those behind it.
fn add_separator(out: &mut Vec<u8>, behind: &[Phrase]) -> Result<(), AllocError>
    ensures { OnOk result (out.new.items ≡ out.old.items ++ separator (map phrase_words behind.now)) }
{
    match behind {
        [] => out.extend_from_slice(b" or "),
        [_, ..] => out.extend_from_slice(b", "),
    }
}

fn add_phrase(out: &mut Vec<u8>, phrase: Phrase) -> Result<(), AllocError>
    ensures { OnOk result (out.new.items ≡ out.old.items ++ phrase_words phrase) }
{
    match phrase {
        Phrase::Whole(group) => out.extend_from_slice(group_words(group)),
        Phrase::Own(terminal) => add_own(out, terminal),
    }
}

fn add_own(out: &mut Vec<u8>, terminal: Terminal) -> Result<(), AllocError>
    ensures { OnOk result (out.new.items ≡ out.old.items ++ own_words terminal) }
{
    match terminal {
        Terminal::Word(word) => add_quoted(out, word_spelling(word)),
        Terminal::Name => out.extend_from_slice(b"a name"),
        Terminal::Number => out.extend_from_slice(b"a number"),
        Terminal::Sign(sign) => add_quoted(out, sign_spelling(sign)),
    }
}

fn add_quoted(out: &mut Vec<u8>, spelling: &[u8]) -> Result<(), AllocError>
    ensures { OnOk result (out.new.items ≡ out.old.items ++ codes "`" ++ spelling.now ++ codes "`") }
{
    out.push(b'`')?;
    out.extend_from_slice(spelling)?;
    out.push(b'`')?;
    Ok(())
}
