//! The lines of a trace, read from its text.
ghost use Rattle.std.specs.Prelude.{◌≡◌, IfOk, codes, bytes_eq};
ghost use Rattle.psy_audit.specs.Texts.{act_of, agent_named, end_of, ending_of, lines_in, look_of, publication_of, said_in, segment_of, variable_named};
ghost use Rattle.psy_meaning.specs.Units.{IsBare};
ghost use Rattle.psy_text.specs.Words.{words_of};

mod forms;

use crate::said::{Ending, Said};
use forms::{act_with, look_with, publication_with, segment_with};
use psy_base::{Items, Memory};
use psy_text::line::cut_line;
use psy_text::word::{cut_word, number, value};
use psy_tree::Unit;
use std::alloc::Global;

/// The lines of the text of a trace of a program up to a date: what each says, and none where it has no listed form. The only error is want of
/// memory.
pub fn read_trace(
    alloc: Global,
    text: &[u8],
    unit: &Unit,
    until: u64,
) -> Result<Items<Option<Said>>, Memory>
    requires { IsBare unit.now }
    ensures { IfOk result (λ lines. lines ≡ lines_in unit.now until text.now) }
{
    let mut lines = Items::new(alloc);
    let mut rest = text;
    'each: while let Some(cut) = cut_line(rest) {
        lines.push(said(unit, until, cut.front))?;
        rest = cut.rest;
    }
    Ok(lines)
}

// What a line says.
fn said(unit: &Unit, until: u64, line: &[u8]) -> Option<Said>
    requires { IsBare unit.now }
    ensures { result ≡ said_in unit.now until (words_of line.now) }
{
    let word = cut_word(line)?;
    if word.front == b"act".as_slice() {
        act(unit, word.rest)
    } else if word.front == b"pub".as_slice() {
        publication(unit, word.rest)
    } else if word.front == b"seg".as_slice() {
        segment(unit, word.rest)
    } else if word.front == b"look".as_slice() {
        look(unit, word.rest)
    } else if word.front == b"end".as_slice() {
        end(until, word.rest)
    } else {
        None
    }
}

// `AGENT ACTION POINT START DEADLINE WORK END`
fn act(unit: &Unit, line: &[u8]) -> Option<Said>
    requires { IsBare unit.now }
    ensures { result ≡ act_of unit.now (words_of line.now) }
{
    let agent = cut_word(line)?;
    let action = cut_word(agent.rest)?;
    let point = cut_word(action.rest)?;
    let start = cut_word(point.rest)?;
    let due = cut_word(start.rest)?;
    let work = cut_word(due.rest)?;
    let end = cut_word(work.rest)?;
    if cut_word(end.rest).is_some() {
        return None;
    }
    act_with(
        agent_named(unit, agent.front),
        number(action.front),
        number(point.front),
        number(start.front),
        number(due.front),
        number(work.front),
        ending(end.front),
    )
}

// `VARIABLE DATE SLOT VALUE`
fn publication(unit: &Unit, line: &[u8]) -> Option<Said>
    requires { IsBare unit.now }
    ensures { result ≡ publication_of unit.now (words_of line.now) }
{
    let variable = cut_word(line)?;
    let date = cut_word(variable.rest)?;
    let slot = cut_word(date.rest)?;
    let its = cut_word(slot.rest)?;
    if cut_word(its.rest).is_some() {
        return None;
    }
    publication_with(
        variable_named(unit, variable.front),
        number(date.front),
        number(slot.front),
        value(its.front),
    )
}

// `PROCESSOR FIRST PAST AGENT ACTION`
fn segment(unit: &Unit, line: &[u8]) -> Option<Said>
    requires { IsBare unit.now }
    ensures { result ≡ segment_of unit.now (words_of line.now) }
{
    let processor = cut_word(line)?;
    let first = cut_word(processor.rest)?;
    let past = cut_word(first.rest)?;
    let agent = cut_word(past.rest)?;
    let action = cut_word(agent.rest)?;
    if cut_word(action.rest).is_some() {
        return None;
    }
    segment_with(
        number(processor.front),
        number(first.front),
        number(past.front),
        agent_named(unit, agent.front),
        number(action.front),
    )
}

// `AGENT ACTION CYCLE VARIABLE BACK SLOT VALUE`
fn look(unit: &Unit, line: &[u8]) -> Option<Said>
    requires { IsBare unit.now }
    ensures { result ≡ look_of unit.now (words_of line.now) }
{
    let agent = cut_word(line)?;
    let action = cut_word(agent.rest)?;
    let cycle = cut_word(action.rest)?;
    let variable = cut_word(cycle.rest)?;
    let back = cut_word(variable.rest)?;
    let slot = cut_word(back.rest)?;
    let its = cut_word(slot.rest)?;
    if cut_word(its.rest).is_some() {
        return None;
    }
    look_with(
        agent_named(unit, agent.front),
        number(action.front),
        number(cycle.front),
        variable_named(unit, variable.front),
        number(back.front),
        number(slot.front),
        value(its.front),
    )
}

// `UNTIL`
fn end(until: u64, line: &[u8]) -> Option<Said>
    ensures { result ≡ end_of until (words_of line.now) }
{
    let word = cut_word(line)?;
    if cut_word(word.rest).is_some() {
        return None;
    }
    let date = number(word.front)?;
    if date == until {
        Some(Said::Ended)
    } else {
        None
    }
}

// How an action ended.
fn ending(word: &[u8]) -> Option<Ending>
    ensures { result ≡ ending_of word.now }
{
    if word == b"stop".as_slice() {
        Some(Ending::Stopped)
    } else if word == b"-".as_slice() {
        Some(Ending::Unfinished)
    } else {
        Some(Ending::At(number(word)?))
    }
}

// The number of the agent with a name, and the count of the agents where none has it.
fn agent_named(unit: &Unit, name: &[u8]) -> u32
    requires { IsBare unit.now }
    ensures { result ≡ agent_named unit.now name.now }
{
    let mut place = 0;
    'agents: for agent in unit.agents.as_slice() {
        if name == agent.name.bytes() {
            return place;
        }
        place += 1;
    }
    place
}

// The number of the variable with a name, and the count of the variables where none has it.
fn variable_named(unit: &Unit, name: &[u8]) -> u32
    requires { IsBare unit.now }
    ensures { result ≡ variable_named unit.now name.now }
{
    let mut place = 0;
    'variables: for variable in unit.variables.as_slice() {
        if name == variable.name.bytes() {
            return place;
        }
        place += 1;
    }
    place
}
