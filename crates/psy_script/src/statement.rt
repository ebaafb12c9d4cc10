//! What a line of a script says.
ghost use Rattle.std.specs.Prelude.{◌≡◌, length, nat_lt};
ghost use Rattle.std.specs.List.{list_all};
ghost use Rattle.std.specs.Option.{option_map};
ghost use Rattle.psy_script.specs.Entries.{number_or_0, numbers_in, said};
ghost use Rattle.psy_text.specs.Words.{is_number, words_of};
ghost use Rattle.psy_script.specs.Script.{is_in_range, order_in, round_in, stall_in, statement_in};

use psy_base::limits;
use psy_text::word::{cut_word, is_number, number};

/// A stall, an order or a round as its line states it. Nothing says yet that its names are agents' and its numbers in their ranges.
#[derive(Clone, Copy)]
pub enum Statement<'a> {
    Stall {
        agent: &'a [u8],
        action: u64,
        instr: u64,
        cycles: u64,
    },
    /// `names` is the rest of the line, with as many words as there are agents.
    Order {
        cycle: u64,
        names: &'a [u8],
    },
    /// `numbers` is the rest of the line, with as many words as there are processors, all of which are numbers.
    Round {
        cycle: u64,
        numbers: &'a [u8],
    },
}

impl Statement<'_> {
    /// Its numbers are in their ranges, in a program of so many processors.
    pub fn is_in_range(&self, processors: u32) -> bool
        ensures { result ≡ is_in_range processors (said self.now) }
    {
        match *self {
            Statement::Stall {
                action,
                instr,
                cycles,
                ..
            } => {
                action <= limits::STALL
                    && instr <= limits::STALL
                    && cycles >= 1
                    && cycles <= limits::STALL
            }
            Statement::Order { cycle, .. } => cycle <= limits::RUN,
            Statement::Round { cycle, numbers } => {
                cycle <= limits::RUN && are_below(numbers, processors)
            }
        }
    }
}

/// What a line says in a program of so many agents and processors. None exactly where it has no listed form.
pub fn read_statement(line: &[u8], agents: usize, processors: u32) -> Option<Statement<'_>>
    ensures { option_map said result ≡ statement_in agents processors (words_of line.now) }
{
    let word = cut_word(line)?;
    if word.front == b"stall".as_slice() {
        stall(word.rest)
    } else if word.front == b"order".as_slice() {
        order(word.rest, agents)
    } else if word.front == b"round".as_slice() {
        round(word.rest, processors)
    } else {
        None
    }
}

// `AGENT ACTION INSTRUCTION CYCLES`
fn stall(line: &[u8]) -> Option<Statement<'_>>
    ensures { option_map said result ≡ stall_in (words_of line.now) }
{
    let agent = cut_word(line)?;
    let action = cut_word(agent.rest)?;
    let instr = cut_word(action.rest)?;
    let cycles = cut_word(instr.rest)?;
    if cut_word(cycles.rest).is_some() {
        return None;
    }
    Some(Statement::Stall {
        agent: agent.front,
        action: number(action.front)?,
        instr: number(instr.front)?,
        cycles: number(cycles.front)?,
    })
}

// `CYCLE AGENT AGENT ..`
fn order(line: &[u8], agents: usize) -> Option<Statement<'_>>
    ensures { option_map said result ≡ order_in agents (words_of line.now) }
{
    let cycle = cut_word(line)?;
    if count_words(cycle.rest) != agents {
        return None;
    }
    Some(Statement::Order {
        cycle: number(cycle.front)?,
        names: cycle.rest,
    })
}

// `CYCLE N N ..`
#[tactic(auto, using(crate::proofs::RoundNumbers::numbers_are))]
fn round(line: &[u8], processors: u32) -> Option<Statement<'_>>
    ensures { option_map said result ≡ round_in processors (words_of line.now) }
{
    let cycle = cut_word(line)?;
    if count_words(cycle.rest) != processors as usize || !are_numbers(cycle.rest) {
        return None;
    }
    Some(Statement::Round {
        cycle: number(cycle.front)?,
        numbers: cycle.rest,
    })
}

fn count_words(line: &[u8]) -> usize
    ensures { result ≡ length (words_of line.now) }
{
    let mut rest = line;
    let mut words = 0;
    while let Some(cut) = cut_word(rest) {
        rest = cut.rest;
        words += 1;
    }
    words
}

// Each word is a number.
fn are_numbers(line: &[u8]) -> bool
    ensures { result ≡ list_all is_number (words_of line.now) }
{
    let mut rest = line;
    while let Some(cut) = cut_word(rest) {
        if !is_number(cut.front) {
            return false;
        }
        rest = cut.rest;
    }
    true
}

// Each of the numbers is less than this.
fn are_below(numbers: &[u8], bound: u32) -> bool
    ensures { result ≡ list_all (λ n. nat_lt n bound) (numbers_in numbers.now) }
{
    let mut rest = numbers;
    while let Some(cut) = cut_word(rest) {
        if number_or_0(cut.front) >= u64::from(bound) {
            return false;
        }
        rest = cut.rest;
    }
    true
}

/// The number that a word is, and 0 where it is none.
pub fn number_or_0(word: &[u8]) -> u64
    ensures { result ≡ number_or_0 word.now }
{
    number(word).unwrap_or(0)
}
