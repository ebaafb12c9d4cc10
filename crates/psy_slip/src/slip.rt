//! What is wrong with a line of inputs or of a script.
ghost use Rattle.std.specs.Prelude.{◌≡◌, IfOk, map};
ghost use Rattle.psy_page.specs.Told.{hint, said, sentence};
ghost use Rattle.psy_slip.specs.Slips.{agent_slip, has_date, input_slip, inputs_slip, listed_slip, listing_slip, listing_told, names_behind, names_slip};
ghost use Rattle.psy_slip.specs.Slips.{no_input, order_slip, round_slip, said_slip, script_slip, sign_told, slip, slip_line, stall_slip, statement_slip};
ghost use Rattle.psy_slip.specs.Slips.{strangers_told, twice_slip, values_slip};
ghost use Rattle.psy_text.specs.Words.{words_of};

use crate::agents::strangers;
use crate::earlier::first_like;
use crate::names::listed;
use crate::range::{listing_range, statement_range};
use crate::sentences as words;
use crate::sought::{Sought, first_of, has, has_byte};
use crate::statement::{Statement, first_twice, statement_of};
use psy_base::Memory;
use psy_page::Piece::{Long, Raw, Shown};
use psy_page::{Told, about, about_some, first_told, hint};
use psy_text::word::{is_number, words_of};
use std::alloc::Global;

/// The file in which a line stands.
#[derive(Clone, Copy, Debug, PartialEq, Eq)]
pub enum File {
    Program,
    Inputs,
    Script,
}

/// A line that tells the word at fault in a line, or what is missing there, by the number of the fault and the bytes before the line; nothing where nothing
/// is told of it. The only error is want of memory.
pub fn slip_line(
    alloc: Global,
    file: File,
    number: u32,
    earlier: &[u8],
    line: &[u8],
) -> Result<Vec<u8>, Memory>
    ensures { IfOk result (λ text. text.items ≡ slip_line (slip file number earlier.now (words_of line.now))) }
{
    let words = words_of(alloc, line)?;
    match file {
        File::Program => Ok(Vec::new(alloc)),
        File::Inputs => inputs_line(alloc, number, earlier, words.as_slice()),
        File::Script => script_line(alloc, number, earlier, words.as_slice()),
    }
}

fn inputs_line(
    alloc: Global,
    number: u32,
    earlier: &[u8],
    words: &[&[u8]],
) -> Result<Vec<u8>, Memory>
    ensures { IfOk result (λ text. text.items ≡ hint (inputs_slip number earlier.now (map (λ w. w.now) words.now))) }
{
    let told = match number {
        1 => first_told(&[sign_told(words), listing_told(words), listing_slip(words)]),
        2 => first_told(&[sign_told(words), listing_told(words), input_slip(words)]),
        3 => listed_slip(words, first_like(alloc, File::Inputs, words, earlier)?),
        4 => listing_range(words),
        _ => None,
    };
    Ok(hint(alloc, told)?)
}

fn script_line(
    alloc: Global,
    number: u32,
    earlier: &[u8],
    words: &[&[u8]],
) -> Result<Vec<u8>, Memory>
    ensures { IfOk result (λ text. text.items ≡ hint (script_slip number earlier.now (map (λ w. w.now) words.now))) }
{
    let told = match number {
        1 => first_told(&[sign_told(words), statement_slip(words)]),
        2 => return agent_line(alloc, earlier, words),
        3 => said_slip(words, first_like(alloc, File::Script, words, earlier)?),
        4 => statement_range(words),
        _ => None,
    };
    Ok(hint(alloc, told)?)
}

// A name that is no agent, or a comment or a comma.
fn agent_line(alloc: Global, earlier: &[u8], words: &[&[u8]]) -> Result<Vec<u8>, Memory>
    ensures { IfOk result (λ text. text.items ≡ hint (script_slip 2 earlier.now (map (λ w. w.now) words.now))) }
{
    let strangers = strangers(alloc, earlier, names_behind(words))?;
    let list = listed(alloc, words::OR, strangers.as_slice())?;
    let told = agent_slip(words, strangers_told(strangers.as_slice(), list.as_slice()));
    Ok(hint(alloc, first_told(&[sign_told(words), told]))?)
}

// The words behind the second.
fn names_behind<'a, 'b>(words: &'a [&'b [u8]]) -> &'a [&'b [u8]]
    ensures { map (λ w. w.now) result.now ≡ names_behind (map (λ w. w.now) words.now) }
{
    match words {
        [_, _, names @ ..] => names,
        _ => &[],
    }
}

// What is told of a line in which a comment or a comma stands.
fn sign_told(words: &[&[u8]]) -> Option<Told<'static>>
    ensures { said result ≡ sign_told (map (λ w. w.now) words.now) }
{
    if has(Sought::Comment, words) {
        Some(Told::Plain(words::COMMENT))
    } else if has(Sought::Comma, words) {
        Some(Told::Plain(words::COMMA))
    } else {
        None
    }
}

// What is told of a line of inputs in which a date stands, or a sign between the name and its values.
fn listing_told(words: &[&[u8]]) -> Option<Told<'static>>
    ensures { said result ≡ listing_told (map (λ w. w.now) words.now) }
{
    if has_date(words) {
        Some(Told::Plain(words::DATE))
    } else if has(Sought::Equal, words) {
        Some(Told::Plain(words::EQUAL))
    } else {
        None
    }
}

// Does a date stand before the name, or behind it with a `@` between?
fn has_date(words: &[&[u8]]) -> bool
    ensures { result ≡ has_date (map (λ w. w.now) words.now) }
{
    match words {
        [] => false,
        [word, ..] => is_number(word) || has_byte(word, b'@'),
    }
}

// The form of a line of inputs.
fn listing_slip<'a>(words: &[&'a [u8]]) -> Option<Told<'a>>
    ensures { said result ≡ listing_slip (map (λ w. w.now) words.now) }
{
    match words {
        [] => None,
        [name, values @ ..] => values_slip(has(Sought::NoLetter, words), name, values),
    }
}

// What is wrong with the values behind a name: they may be the names of columns.
fn values_slip<'a>(listing: bool, name: &'a [u8], values: &[&'a [u8]]) -> Option<Told<'a>>
    ensures { said result ≡ values_slip listing name.now (map (λ w. w.now) values.now) }
{
    match values {
        [] => Some(about(words::VALUE_MISSING, name)),
        [_, ..] if listing => about_some(words::NO_VALUE, first_of(Sought::NoValue, values)),
        [_, ..] => Some(Told::Plain(words::HEAD)),
    }
}

// A name that is no input.
fn input_slip<'a>(words: &[&'a [u8]]) -> Option<Told<'a>>
    ensures { said result ≡ input_slip (map (λ w. w.now) words.now) }
{
    match words {
        [] => None,
        [name, ..] => Some(about(no_input(name), name)),
    }
}

fn no_input(name: &[u8]) -> &'static [u8]
    ensures { result.now ≡ no_input name.now }
{
    if has_byte(name, b'.') {
        words::POINTED
    } else if statement_of(name).is_some() {
        words::OF_SCRIPT
    } else {
        words::NO_INPUT
    }
}

// An input has its values from the line of this number, where it is known.
fn listed_slip<'a>(words: &[&'a [u8]], line: Option<usize>) -> Option<Told<'a>>
    ensures { said result ≡ listed_slip (map (λ w. w.now) words.now) line }
{
    match (words, line) {
        ([], _) => None,
        ([name, ..], None) => Some(about(words::LISTED, name)),
        ([name, ..], Some(line)) => Some(Told::Two(
            words::LISTED_AT,
            Shown(name),
            Long(line as u64),
        )),
    }
}

// The form of a line of a script.
fn statement_slip<'a>(words: &[&'a [u8]]) -> Option<Told<'a>>
    ensures { said result ≡ statement_slip (map (λ w. w.now) words.now) }
{
    match words {
        [] => None,
        [word, behind @ ..] => match statement_of(word) {
            Some(Statement::Stall) => stall_slip(behind),
            Some(Statement::Order) => Some(order_slip(behind)),
            Some(Statement::Round) => Some(round_slip(behind)),
            None => Some(about(words::NO_STATEMENT, word)),
        },
    }
}

#[tactic(auto, using(crate::proofs::Mapped::length_of_map), unfolding(crate::specs::Slips::stall_slip))]
fn stall_slip<'a>(words: &[&'a [u8]]) -> Option<Told<'a>>
    ensures { said result ≡ stall_slip (map (λ w. w.now) words.now) }
{
    let many = Told::One(words::STALL_WORDS, Long(words.len() as u64));
    match words {
        [] => Some(many),
        [_, numbers @ ..] => {
            if numbers.len() == 3 {
                about_some(words::NO_NUMBER, first_of(Sought::NoNumber, numbers))
            } else {
                Some(many)
            }
        }
    }
}

#[tactic(auto, using(crate::proofs::Mapped::length_of_map), unfolding(crate::specs::Slips::order_slip))]
fn order_slip<'a>(words: &[&'a [u8]]) -> Told<'a>
    ensures { sentence result ≡ order_slip (map (λ w. w.now) words.now) }
{
    match words {
        [] => Told::Plain(words::ORDER_WORDS),
        [cycle, names @ ..] => {
            if is_number(cycle) {
                Told::One(words::ORDER_NAMES, Long(names.len() as u64))
            } else {
                about(words::NO_NUMBER, cycle)
            }
        }
    }
}

#[tactic(auto, using(crate::proofs::Mapped::length_of_map), unfolding(crate::specs::Slips::round_slip))]
fn round_slip<'a>(words: &[&'a [u8]]) -> Told<'a>
    ensures { sentence result ≡ round_slip (map (λ w. w.now) words.now) }
{
    match words {
        [] => Told::Plain(words::ROUND_WORDS),
        [_, numbers @ ..] => match first_of(Sought::NoNumber, words) {
            Some(word) => about(words::NO_NUMBER, word),
            None => Told::One(words::ROUND_NUMBERS, Long(numbers.len() as u64)),
        },
    }
}

// What a line says is said by the line of this number, where it is known; else a name or a number stands there twice.
fn said_slip<'a>(words: &[&'a [u8]], line: Option<usize>) -> Option<Told<'a>>
    ensures { said result ≡ said_slip (map (λ w. w.now) words.now) line }
{
    match line {
        None => names_slip(words),
        Some(line) => Some(Told::One(words::SAID_AT, Long(line as u64))),
    }
}

fn names_slip<'a>(words: &[&'a [u8]]) -> Option<Told<'a>>
    ensures { said result ≡ names_slip (map (λ w. w.now) words.now) }
{
    match words {
        [word, _, names @ ..] => twice_slip(statement_of(word)?, names),
        _ => None,
    }
}

fn twice_slip<'a>(statement: Statement, names: &[&'a [u8]]) -> Option<Told<'a>>
    ensures { said result ≡ twice_slip statement (map (λ w. w.now) names.now) }
{
    match statement {
        Statement::Stall => None,
        Statement::Order | Statement::Round => about_some(
            words::TWICE,
            first_twice(statement, names),
        ),
    }
}

// The agent of a stall that isn't one; of an order, what is told of its names.
fn agent_slip<'a>(words: &[&'a [u8]], strangers: Told<'a>) -> Option<Told<'a>>
    ensures { said result ≡ agent_slip (map (λ w. w.now) words.now) (sentence strangers.entry) }
{
    match words {
        [word, agent, ..] => match statement_of(word) {
            Some(Statement::Stall) => Some(about(words::NO_AGENT, agent)),
            _ => Some(strangers),
        },
        _ => None,
    }
}

// One of these names, with this list of them, is no agent.
fn strangers_told<'a>(names: &[&[u8]], list: &'a [u8]) -> Told<'a>
    ensures { sentence result ≡ strangers_told (map (λ w. w.now) names.now) list.now }
{
    match names {
        [] => Told::Plain(words::SOME_STRANGER),
        [_, ..] => Told::One(words::STRANGERS, Raw(list)),
    }
}
