//! What a program tells of a line of inputs or of a script.
ghost use Rattle.std.specs.Prelude.{◌≡◌, ◌++◌, IfOk, OnOk, map, take};
ghost use Rattle.std.specs.Option.{option_copied};
ghost use Rattle.psy_page.specs.Told.{said, sentence};
ghost use Rattle.psy_slip.specs.Besides.{agent_meant, beside_hint, first_stranger, first_unknown, input_meant, inputs_beside, inputs_listed, inputs_told};
ghost use Rattle.psy_slip.specs.Besides.{kind_told, left_out, left_out_here, meant_or_all, names_beside, order_beside, other_told, other_word, script_beside};

use crate::declared::{How, declared, first_declared, inputs_of};
use crate::names::listed;
use crate::sentences as words;
use crate::slip::File;
use crate::statement::{Statement, is_among, statement_of};
use psy_base::Memory;
use psy_page::Piece::Raw;
use psy_page::{Told, about, about_some, add_hint};
use psy_text::word::is_number;
use psy_tree::{Token, Word};
use std::alloc::{AllocError, Global};

/// The words that declare something else than an input.
pub const OTHERS: [Word; 9] = [
    Word::Temporal,
    Word::Stream,
    Word::Agent,
    Word::Clock,
    Word::Int,
    Word::Int8,
    Word::Int16,
    Word::Int32,
    Word::Int64,
];

/// What a program's tokens tell of a line, by its words, in which the fault of this number was found: what else a name is, and a name that may be meant or
/// the inputs that there are; or the agents that an order leaves out. Nothing where they tell nothing. The only error is want of memory.
pub fn beside_hint(
    alloc: Global,
    file: File,
    number: u32,
    words: &[&[u8]],
    tokens: &[Token],
) -> Result<Vec<u8>, Memory>
    ensures { IfOk result (λ hint. hint.items ≡ beside_hint file number (map (λ w. w.now) words.now) tokens.now) }
{
    let mut out = Vec::new(alloc);
    match file {
        File::Inputs if number == 2 => add_inputs_beside(alloc, &mut out, words, tokens)?,
        File::Script => add_script_beside(&mut out, number, words, tokens)?,
        _ => {}
    }
    Ok(out)
}

fn add_inputs_beside(
    alloc: Global,
    out: &mut Vec<u8>,
    words: &[&[u8]],
    tokens: &[Token],
) -> Result<(), AllocError>
    ensures { OnOk result (out.new.items ≡ out.old.items ++ inputs_beside (map (λ w. w.now) words.now) tokens.now) }
{
    match words {
        [] => Ok(()),
        [name, ..] => add_input_meant(alloc, out, name, tokens),
    }
}

fn add_input_meant(
    alloc: Global,
    out: &mut Vec<u8>,
    name: &[u8],
    tokens: &[Token],
) -> Result<(), AllocError>
    ensures { OnOk result (out.new.items ≡ out.old.items ++ input_meant name.now tokens.now) }
{
    add_hint(out, other_told(name, other_word(name, tokens)))?;
    match first_declared(How::Near, Word::Input, name, tokens) {
        Some(name) => add_hint(out, Some(about(words::INPUT_MEANT, name))),
        None => add_inputs(alloc, out, tokens),
    }
}

// The first word with which the program declares a name as something else than an input.
fn other_word(name: &[u8], tokens: &[Token]) -> Option<Word>
    ensures { result ≡ other_word name.now tokens.now }
{
    OTHERS.iter().copied().find(|word| first_declared(How::Same, *word, name, tokens).is_some())
}

// What a name is that is declared with this word.
fn other_told(name: &[u8], word: Option<Word>) -> Option<Told<'_>>
    ensures { said result ≡ other_told name.now word }
{
    Some(about(kind_told(word?), name))
}

fn kind_told(word: Word) -> &'static [u8]
    ensures { result.now ≡ kind_told word }
{
    match word {
        Word::Temporal => words::IS_TEMPORAL,
        Word::Stream => words::IS_STREAM,
        Word::Agent => words::IS_AGENT,
        Word::Clock => words::IS_CLOCK,
        _ => words::IS_INSIDE,
    }
}

// Adds which inputs the program has, eight at most.
fn add_inputs(alloc: Global, out: &mut Vec<u8>, tokens: &[Token]) -> Result<(), AllocError>
    ensures { OnOk result (out.new.items ≡ out.old.items ++ inputs_listed tokens.now) }
{
    let names = inputs_of(alloc, tokens)?;
    let list = listed(alloc, words::AND, first_eight(names.as_slice()))?;
    add_hint(out, Some(inputs_told(names.as_slice(), list.as_slice())))
}

#[tactic(auto, using(crate::proofs::Mapped::front_of_map, std::proofs::lemmas::List::take_all))]
fn first_eight<'a, 'b>(names: &'a [&'b [u8]]) -> &'a [&'b [u8]]
    ensures { map (λ w. w.now) result.now ≡ take 8 (map (λ w. w.now) names.now) }
{
    if names.len() <= 8 { names } else { &names[..8] }
}

// The inputs are these, with this list of the first of them.
#[tactic(auto, using(crate::proofs::Mapped::length_of_map))]
fn inputs_told<'a>(names: &[&[u8]], list: &'a [u8]) -> Told<'a>
    ensures { sentence result ≡ inputs_told (map (λ w. w.now) names.now) list.now }
{
    match names {
        [] => Told::Plain(words::NO_INPUTS),
        [_] => Told::One(words::ONLY_INPUT, Raw(list)),
        _ if names.len() <= 8 => Told::One(words::ALL_INPUTS, Raw(list)),
        _ => Told::One(words::FIRST_INPUTS, Raw(list)),
    }
}

fn add_script_beside(
    out: &mut Vec<u8>,
    number: u32,
    words: &[&[u8]],
    tokens: &[Token],
) -> Result<(), AllocError>
    ensures { OnOk result (out.new.items ≡ out.old.items ++ script_beside number (map (λ w. w.now) words.now) tokens.now) }
{
    match number {
        1 => add_order_beside(out, words, tokens),
        2 => add_names_beside(out, words, tokens),
        _ => Ok(()),
    }
}

fn add_order_beside(out: &mut Vec<u8>, words: &[&[u8]], tokens: &[Token]) -> Result<(), AllocError>
    ensures { OnOk result (out.new.items ≡ out.old.items ++ order_beside (map (λ w. w.now) words.now) tokens.now) }
{
    match words {
        [word, cycle, names @ ..] => match statement_of(word) {
            Some(Statement::Order) if is_number(cycle) => add_left_out(out, names, tokens),
            _ => Ok(()),
        },
        _ => Ok(()),
    }
}

// Adds each agent that isn't among the names.
fn add_left_out(out: &mut Vec<u8>, names: &[&[u8]], tokens: &[Token]) -> Result<(), AllocError>
    ensures { OnOk result (out.new.items ≡ out.old.items ++ left_out (map (λ w. w.now) names.now) tokens.now) }
{
    let mut rest = tokens;
    'each: while let [_, more @ ..] = rest {
        add_hint(out, left_out_here(names, declared(Word::Agent, rest)))?;
        rest = more;
    }
    Ok(())
}

fn left_out_here<'a>(names: &[&[u8]], agent: Option<&'a [u8]>) -> Option<Told<'a>>
    ensures { said result ≡ left_out_here (map (λ w. w.now) names.now) (option_copied agent.entry) }
{
    match agent {
        Some(agent) if !is_among(Statement::Order, names, agent) => Some(about(
            words::LEFT_OUT,
            agent,
        )),
        _ => None,
    }
}

fn add_names_beside(out: &mut Vec<u8>, words: &[&[u8]], tokens: &[Token]) -> Result<(), AllocError>
    ensures { OnOk result (out.new.items ≡ out.old.items ++ names_beside (map (λ w. w.now) words.now) tokens.now) }
{
    match words {
        [word, agent, names @ ..] => match statement_of(word) {
            Some(Statement::Stall) => add_hint(out, agent_meant(agent, tokens)),
            _ => add_stranger(out, first_unknown(names, tokens), tokens),
        },
        _ => Ok(()),
    }
}

fn agent_meant<'a>(name: &[u8], tokens: &'a [Token]) -> Option<Told<'a>>
    ensures { said result ≡ agent_meant name.now tokens.now }
{
    let near = first_declared(How::Near, Word::Agent, name, tokens);
    about_some(words::AGENT_MEANT, near)
}

// Adds that the program has no agent of this name, and which may be meant.
fn add_stranger(out: &mut Vec<u8>, name: Option<&[u8]>, tokens: &[Token]) -> Result<(), AllocError>
    ensures { OnOk result (out.new.items ≡ out.old.items ++ first_stranger (option_copied name.entry) tokens.now) }
{
    let Some(name) = name else { return Ok(()) };
    add_hint(out, Some(about(words::NO_SUCH_AGENT, name)))?;
    add_hint(out, agent_meant(name, tokens))
}

// The first of some names that is no agent.
fn first_unknown<'a>(names: &[&'a [u8]], tokens: &[Token]) -> Option<&'a [u8]>
    ensures { option_copied result ≡ first_unknown (map (λ w. w.now) names.now) tokens.now }
{
    let mut rest = names;
    'each: while let [name, more @ ..] = rest {
        if first_declared(How::Same, Word::Agent, name, tokens).is_none() {
            return Some(name);
        }
        rest = more;
    }
    None
}
