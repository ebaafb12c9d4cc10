//! What is told of words that no command has.
ghost use Rattle.std.specs.Prelude.{◌≡◌, ◌∷◌, IfOk, map, slice_get, string_bytes};
ghost use Rattle.std.specs.Option.{option_copied};
ghost use Rattle.psy_page.specs.Told.{said, sentence};
ghost use Rattle.psy_words.specs.Faults.{count_told, date_told, dated_told, extra, fault_told, form_told, is_date, is_few, is_needed, is_repeated, lack_told};
ghost use Rattle.psy_words.specs.Faults.{lines, place, second_place, timeline_told, unknown_told, words_told};

use crate::form::{How, form_of, is_of_psyc, name_of};
use crate::sentences as words;
use psy_base::Memory;
use psy_base::limits::UNTIL;
use psy_page::Piece::{Raw, Shown};
use psy_page::{Told, about, about_some, add_hint, say};
use psy_text::word::{is_number, number, words_of};
use std::alloc::{AllocError, Global};

/// What is told of words that psyview was called with, where they are of no form: in a line the word at fault, or what is missing, and in another the form of
/// the command. The only error is want of memory.
pub fn words_told(alloc: Global, words: &[String]) -> Result<Vec<u8>, Memory>
    ensures { IfOk result (λ text. text.items ≡ words_told (map string_bytes words.now)) }
{
    match words {
        [] => Ok(Vec::new(alloc)),
        [word, more @ ..] => command_told(alloc, word.as_str().as_bytes(), more),
    }
}

fn command_told(alloc: Global, word: &[u8], words: &[String]) -> Result<Vec<u8>, Memory>
    ensures { IfOk result (λ text. text.items ≡ words_told (word.now ∷ map string_bytes words.now)) }
{
    match form_of(How::Same, word) {
        None => {
            let near = form_of(How::Near, word);
            Ok(lines(
                alloc,
                Some(unknown_told(word, near)),
                if is_of_psyc(word) { None } else { near },
            )?)
        }
        Some(form) => {
            let places = words_of(alloc, form)?;
            Ok(lines(alloc, fault_told(places.as_slice(), words), Some(form))?)
        }
    }
}

// What is told, and the form of the command, where there is one.
fn lines(alloc: Global, told: Option<Told>, form: Option<&[u8]>) -> Result<Vec<u8>, AllocError>
    ensures { IfOk result (λ text. text.items ≡ lines (said told.entry) (option_copied form.entry)) }
{
    let mut out = Vec::new(alloc);
    let Some(told) = told else { return Ok(out) };
    say(&mut out, told)?;
    out.push(b'\n')?;
    add_hint(&mut out, form_told(form))?;
    Ok(out)
}

fn form_told(form: Option<&[u8]>) -> Option<Told<'_>>
    ensures { said result ≡ form_told (option_copied form.entry) }
{
    Some(Told::One(words::FORM, Raw(form?)))
}

// What is told of a word that is no command: that it is one of psyc, or the one that it nearly is.
fn unknown_told<'a>(word: &'a [u8], near: Option<&'a [u8]>) -> Told<'a>
    ensures { sentence result ≡ unknown_told word.now (option_copied near.entry) }
{
    if is_of_psyc(word) {
        return about(words::OF_PSYC, word);
    }
    match near {
        None => about(words::NO_COMMAND, word),
        Some(form) => Told::Two(words::NEAR_COMMAND, Shown(word), Shown(name_of(form))),
    }
}

fn fault_told<'a>(places: &[&'a [u8]], words: &'a [String]) -> Option<Told<'a>>
    ensures { said result ≡ fault_told (map (λ p. p.now) places.now) (map string_bytes words.now) }
{
    if place(places, 2) == b"UNTIL".as_slice() {
        dated_told(places, words)
    } else if place(places, 0) == b"timeline".as_slice() {
        Some(timeline_told(places, words))
    } else {
        count_told(places, words)
    }
}

// The word of a form of this number, from 0.
fn place<'a>(places: &[&'a [u8]], number: usize) -> &'a [u8]
    ensures { result.now ≡ place (map (λ p. p.now) places.now) number }
{
    match places.get(number) {
        Some(place) => place,
        None => b"",
    }
}

// What is wrong with the words behind a command of which the second is a date.
fn dated_told<'a>(places: &[&'a [u8]], words: &'a [String]) -> Option<Told<'a>>
    ensures { said result ≡ dated_told (map (λ p. p.now) places.now) (map string_bytes words.now) }
{
    match words {
        [] => Some(lack_told(places, words)),
        [program] => {
            if is_number(program.as_str().as_bytes()) {
                Some(about(words::BEFORE, program.as_str().as_bytes()))
            } else {
                Some(lack_told(places, words))
            }
        }
        [program, until, ..] => {
            if is_date(until.as_str().as_bytes()) {
                count_told(places, words)
            } else {
                Some(date_told(program.as_str().as_bytes(), until.as_str().as_bytes()))
            }
        }
    }
}

// Is the word a date up to which a program may run?
fn is_date(word: &[u8]) -> bool
    ensures { result ≡ is_date word.now }
{
    number(word).is_some_and(|n| n <= u64::from(UNTIL))
}

fn date_told<'a>(program: &'a [u8], until: &'a [u8]) -> Told<'a>
    ensures { sentence result ≡ date_told program.now until.now }
{
    if is_number(until) {
        about(words::TOO_GREAT, until)
    } else if is_number(program) {
        about(words::BEFORE, program)
    } else {
        about(words::NO_DATE, until)
    }
}

fn timeline_told<'a>(places: &[&'a [u8]], words: &'a [String]) -> Told<'a>
    ensures { sentence result ≡ timeline_told (map (λ p. p.now) places.now) (map string_bytes words.now) }
{
    match words {
        [] => lack_told(places, words),
        [_, ..] => Told::Plain(words::TIMELINE),
    }
}

// Too few or too many words stand behind a command.
fn count_told<'a>(places: &[&'a [u8]], words: &'a [String]) -> Option<Told<'a>>
    ensures { said result ≡ count_told (map (λ p. p.now) places.now) (map string_bytes words.now) }
{
    if is_few(places, words) {
        Some(lack_told(places, words))
    } else {
        about_some(words::EXTRA, extra(places, words))
    }
}

// Is the first place without a word one that isn't left out?
#[tactic(auto, using(crate::proofs::Mapped::length_of_map))]
fn is_few(places: &[&[u8]], words: &[String]) -> bool
    ensures { result ≡ is_few (map (λ p. p.now) places.now) (map string_bytes words.now) }
{
    is_needed(place(places, words.len() + 1))
}

fn is_needed(place: &[u8]) -> bool
    ensures { result ≡ is_needed place.now }
{
    match place {
        [first, ..] => *first != b'[',
        [] => false,
    }
}

// The first word that is one too many, where the last place isn't filled more than once.
#[tactic(auto, using(crate::proofs::Mapped::length_of_map))]
fn extra<'a>(places: &[&[u8]], words: &'a [String]) -> Option<&'a [u8]>
    ensures { option_copied result ≡ extra (map (λ p. p.now) places.now) (map string_bytes words.now) }
{
    let behind = places.len().saturating_sub(1);
    if is_repeated(place(places, behind)) {
        None
    } else {
        word(words, behind)
    }
}

fn is_repeated(place: &[u8]) -> bool
    ensures { result ≡ is_repeated place.now }
{
    place.iter().any(|b| *b == b'.')
}

// The word of this number.
fn word(words: &[String], number: usize) -> Option<&[u8]>
    ensures { option_copied result ≡ slice_get (map string_bytes words.now) number }
{
    match words.get(number) {
        Some(word) => Some(word.as_str().as_bytes()),
        None => None,
    }
}

// The first or the second word behind a command is missing.
fn lack_told<'a>(places: &[&'a [u8]], words: &'a [String]) -> Told<'a>
    ensures { sentence result ≡ lack_told (map (λ p. p.now) places.now) (map string_bytes words.now) }
{
    match words {
        [] => Told::Two(
            words::MISSING,
            Raw(place(places, 1)),
            Shown(place(places, 0)),
        ),
        [word, ..] => Told::Two(
            words::MISSING,
            Raw(second_place(places)),
            Shown(word.as_str().as_bytes()),
        ),
    }
}

// What is missing behind the first word.
fn second_place<'a>(places: &[&'a [u8]]) -> &'a [u8]
    ensures { result.now ≡ second_place (map (λ p. p.now) places.now) }
{
    let name = place(places, 0);
    if name == b"where".as_slice() {
        words::LINE
    } else if name == b"diff".as_slice() {
        words::SECOND_LOG
    } else {
        place(places, 2)
    }
}
