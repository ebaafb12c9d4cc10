//! Which earlier line says the same as a line.
ghost use Rattle.std.specs.Prelude.{◌≡◌, IfOk, map};
ghost use Rattle.psy_slip.specs.Earlier.{first_like, is_said_by, is_same_cycle, is_same_name, is_same_stall, is_same_statement};

use crate::numbers::is_same_number;
use crate::slip::File;
use crate::statement::{Statement, statement_of};
use psy_base::Memory;
use psy_text::line::cut_line;
use psy_text::word::words_of;
use std::alloc::Global;

/// The number, from 1, of the first line of a text that says the same as these words. The only error is want of memory.
pub fn first_like(
    alloc: Global,
    file: File,
    words: &[&[u8]],
    text: &[u8],
) -> Result<Option<usize>, Memory>
    ensures { IfOk result (λ line. line ≡ first_like file (map (λ w. w.now) words.now) text.now) }
{
    let mut lines = 0;
    let mut rest = text;
    'each: while let Some(cut) = cut_line(rest) {
        let others = words_of(alloc, cut.front)?;
        if is_said_by(file, words, others.as_slice()) {
            return Ok(Some(lines + 1));
        }
        rest = cut.rest;
        lines += 1;
    }
    Ok(None)
}

fn is_said_by(file: File, words: &[&[u8]], others: &[&[u8]]) -> bool
    ensures { result ≡ is_said_by file (map (λ w. w.now) words.now) (map (λ w. w.now) others.now) }
{
    match file {
        File::Program => false,
        File::Inputs => is_same_name(words, others),
        File::Script => is_same_statement(words, others),
    }
}

fn is_same_name(words: &[&[u8]], others: &[&[u8]]) -> bool
    ensures { result ≡ is_same_name (map (λ w. w.now) words.now) (map (λ w. w.now) others.now) }
{
    match (words, others) {
        ([name, ..], [other, ..]) => name == other,
        _ => false,
    }
}

fn is_same_statement(words: &[&[u8]], others: &[&[u8]]) -> bool
    ensures { result ≡ is_same_statement (map (λ w. w.now) words.now) (map (λ w. w.now) others.now) }
{
    match (words, others) {
        ([word, words @ ..], [other, others @ ..]) => match (
            statement_of(word),
            statement_of(other),
        ) {
            (Some(Statement::Stall), Some(Statement::Stall)) => is_same_stall(words, others),
            (Some(Statement::Order), Some(Statement::Order)) => is_same_cycle(words, others),
            (Some(Statement::Round), Some(Statement::Round)) => is_same_cycle(words, others),
            _ => false,
        },
        _ => false,
    }
}

#[tactic(auto, unfolding(crate::specs::Earlier::is_same_stall))]
fn is_same_stall(words: &[&[u8]], others: &[&[u8]]) -> bool
    ensures { result ≡ is_same_stall (map (λ w. w.now) words.now) (map (λ w. w.now) others.now) }
{
    match (words, others) {
        ([agent, action, instr, _], [other, act, place, _]) => agent == other
            && (is_same_number(action, act) && is_same_number(instr, place)),
        _ => false,
    }
}

#[tactic(auto, unfolding(crate::specs::Earlier::is_same_cycle))]
fn is_same_cycle(words: &[&[u8]], others: &[&[u8]]) -> bool
    ensures { result ≡ is_same_cycle (map (λ w. w.now) words.now) (map (λ w. w.now) others.now) }
{
    match (words, others) {
        ([cycle, ..], [other, ..]) => is_same_number(cycle, other),
        _ => false,
    }
}
