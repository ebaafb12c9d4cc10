//! What a file looks like that may stand in another's place.
ghost use Rattle.std.specs.Prelude.{◌≡◌, IfOk, map};
ghost use Rattle.psy_page.specs.Told.{said};
ghost use Rattle.psy_slip.specs.Looks.{begins_declaration, begins_program, called, ends, file_hint, first_said};
ghost use Rattle.psy_slip.specs.Looks.{has_end, is_declared, is_like, is_marked, is_note, is_program, is_slashed, look_in, look_of, look_told, says, unlike};
ghost use Rattle.psy_text.specs.Words.{words_of};

use crate::sentences as words;
use crate::slip::File;
use crate::sought::{Sought, has};
use crate::statement::statement_of;
use psy_base::Memory;
use psy_base::limits::FILE_BYTES;
use psy_page::Piece::Raw;
use psy_page::{Told, hint};
use psy_text::line::{cut_line, is_skipped};
use psy_text::word::{cut_word, is_number, is_value, words_of};
use std::alloc::Global;

/// What a file may look like.
#[derive(Clone, Copy, Debug, PartialEq, Eq)]
pub enum Look {
    Program,
    Inputs,
    Script,
    /// What a run writes.
    Log,
}

/// A line that tells of the whole of a file, which should be of this sort: that a byte order mark stands in front, or that it looks like one of another
/// sort; nothing where neither is so. The only error is want of memory.
pub fn file_hint(alloc: Global, wanted: File, text: &[u8]) -> Result<Vec<u8>, Memory>
    ensures { IfOk result (λ hint. hint.items ≡ file_hint wanted text.now) }
{
    if is_marked(text) {
        return Ok(hint(alloc, Some(Told::Plain(words::MARKED)))?);
    }
    let words = words_of(alloc, first_said(text))?;
    Ok(hint(alloc, look_told(wanted, has_end(text), words.as_slice()))?)
}

/// Does a text look like a program, by its length and its first line that says something? The only error is want of memory.
pub fn is_program(alloc: Global, text: &[u8]) -> Result<bool, Memory>
    ensures { IfOk result (λ is. is ≡ is_program text.now) }
{
    if text.len() > FILE_BYTES {
        return Ok(false);
    }
    let words = words_of(alloc, first_said(text))?;
    Ok(is_like(Look::Program, words.as_slice()))
}

// The first line that says something; an empty one where none does.
fn first_said(text: &[u8]) -> &[u8]
    ensures { result.now ≡ first_said text.now }
{
    let mut rest = text;
    'each: while let Some(cut) = cut_line(rest) {
        if says(cut.front) {
            return cut.front;
        }
        rest = cut.rest;
    }
    b""
}

fn says(line: &[u8]) -> bool
    ensures { result ≡ says line.now }
{
    !(is_skipped(line) || is_slashed(line))
}

// Does the first word of a line begin with `//`?
fn is_slashed(line: &[u8]) -> bool
    ensures { result ≡ is_slashed (words_of line.now) }
{
    match cut_word(line) {
        Some(cut) => cut.front.starts_with(b"//"),
        None => false,
    }
}

// Has a text the line at which a log comes to its summary?
fn has_end(text: &[u8]) -> bool
    ensures { result ≡ has_end text.now }
{
    let mut rest = text;
    'each: while let Some(cut) = cut_line(rest) {
        if ends(cut.front) {
            return true;
        }
        rest = cut.rest;
    }
    false
}

fn ends(line: &[u8]) -> bool
    ensures { result ≡ ends line.now }
{
    line.starts_with(b"end ")
}

fn is_marked(text: &[u8]) -> bool
    ensures { result ≡ is_marked text.now }
{
    text.starts_with(b"\xEF\xBB\xBF")
}

fn look_told(wanted: File, ended: bool, words: &[&[u8]]) -> Option<Told<'static>>
    ensures { said result ≡ look_told wanted ended (map (λ w. w.now) words.now) }
{
    if is_like(look_of(wanted), words) {
        None
    } else {
        unlike(look_of(wanted), look_in(ended, words))
    }
}

// What a file of this sort looks like.
fn look_of(file: File) -> Look
    ensures { result ≡ look_of file }
{
    match file {
        File::Program => Look::Program,
        File::Inputs => Look::Inputs,
        File::Script => Look::Script,
    }
}

fn unlike(wanted: Look, look: Option<Look>) -> Option<Told<'static>>
    ensures { said result ≡ unlike wanted look }
{
    Some(Told::Two(words::UNLIKE, Raw(called(look?)), Raw(called(wanted))))
}

fn called(look: Look) -> &'static [u8]
    ensures { result.now ≡ called look }
{
    match look {
        Look::Program => words::PROGRAM,
        Look::Inputs => words::INPUTS,
        Look::Script => words::SCRIPT,
        Look::Log => words::LOG,
    }
}

// The first of the sorts that a file looks like, by the words of its first line that says something, and whether it has the end of a log.
fn look_in(ended: bool, words: &[&[u8]]) -> Option<Look>
    ensures { result ≡ look_in ended (map (λ w. w.now) words.now) }
{
    if is_like(Look::Program, words) {
        Some(Look::Program)
    } else if is_like(Look::Script, words) {
        Some(Look::Script)
    } else if ended && is_like(Look::Log, words) {
        Some(Look::Log)
    } else if is_like(Look::Inputs, words) {
        Some(Look::Inputs)
    } else {
        None
    }
}

fn is_like(look: Look, words: &[&[u8]]) -> bool
    ensures { result ≡ is_like look (map (λ w. w.now) words.now) }
{
    let Some((word, more)) = words.split_first() else {
        return false;
    };
    match look {
        Look::Program => begins_program(word) || (begins_declaration(word) && is_declared(more)),
        Look::Script => statement_of(word).is_some(),
        Look::Inputs => !begins_program(word) && (!more.is_empty() && !has(Sought::NoValue, more)),
        Look::Log => is_number(word) && is_note(more),
    }
}

// Does a name stand behind a date, and something behind that?
fn is_note(words: &[&[u8]]) -> bool
    ensures { result ≡ is_note (map (λ w. w.now) words.now) }
{
    match words {
        [name, _, ..] => !is_value(name),
        _ => false,
    }
}

fn begins_program(word: &[u8]) -> bool
    ensures { result ≡ begins_program word.now }
{
    word == b"tick".as_slice() || word.starts_with(b"/*")
}

fn begins_declaration(word: &[u8]) -> bool
    ensures { result ≡ begins_declaration word.now }
{
    matches!(
        word,
        b"clock" | b"temporal" | b"input" | b"stream" | b"agent" | b"int"
    )
}

// Does no number stand behind a name?
fn is_declared(words: &[&[u8]]) -> bool
    ensures { result ≡ is_declared (map (λ w. w.now) words.now) }
{
    match words {
        [_, word, ..] => !is_number(word),
        _ => false,
    }
}
