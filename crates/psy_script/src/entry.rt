//! A stall, an order or a round, with agents by their numbers.
ghost use Rattle.std.specs.Prelude.{◌≡◌, map, IfOk};
ghost use Rattle.psy_script.specs.Entries.{entry_in, numbers_in, place_in, repeats, said};
ghost use Rattle.psy_text.specs.Words.{words_of};
ghost use Rattle.psy_script.specs.Numbers.{all_some};

use crate::names::Names;
use crate::statement::{Statement, number_or_0};
use psy_base::{Items, Memory};
use psy_budget::Stall;
use psy_history::Order;
use psy_text::word::cut_word;
use std::alloc::Global;

/// A stall or an order of agents of the program, or a round. Nothing says yet that the numbers of a round are processors'.
#[derive(Drop)]
pub enum Entry {
    Stall(Stall),
    Order(Order),
    Round { cycle: u64, numbers: Items<u64> },
}

/// What a line says of the agents whose names are these. None exactly where it names no agent.
pub fn entry_of(
    alloc: Global,
    agents: &Names,
    statement: &Statement<'_>,
) -> Result<Option<Entry>, Memory>
    ensures { IfOk result (λ found. found ≡ entry_in agents.now (said statement.now)) }
{
    match *statement {
        Statement::Stall {
            agent,
            action,
            instr,
            cycles,
        } => Ok(
            agents.place(alloc, agent)?.map(|agent| {
                Entry::Stall(Stall {
                    agent,
                    action,
                    instr,
                    cycles,
                })
            }),
        ),
        Statement::Order { cycle, names } => {
            let agents = places(alloc, agents, names)?;
            Ok(agents.map(|agents| Entry::Order(Order { cycle, agents })))
        }
        Statement::Round { cycle, numbers } => {
            let numbers = all_numbers(alloc, numbers)?;
            Ok(Some(Entry::Round { cycle, numbers }))
        }
    }
}

// The numbers of the agents that a line names.
fn places(alloc: Global, agents: &Names, names: &[u8]) -> Result<Option<Items<u32>>, Memory>
    ensures { IfOk result (λ found. found ≡ all_some (map (place_in agents.now) (words_of names.now))) }
{
    let mut places = Items::new(alloc);
    let mut rest = names;
    while let Some(cut) = cut_word(rest) {
        let Some(place) = agents.place(alloc, cut.front)? else {
            return Ok(None);
        };
        places.push(place)?;
        rest = cut.rest;
    }
    Ok(Some(places))
}

// The numbers of a round.
fn all_numbers(alloc: Global, words: &[u8]) -> Result<Items<u64>, Memory>
    ensures { IfOk result (λ numbers. numbers ≡ numbers_in words.now) }
{
    let mut numbers = Items::new(alloc);
    let mut rest = words;
    while let Some(cut) = cut_word(rest) {
        numbers.push(number_or_0(cut.front))?;
        rest = cut.rest;
    }
    Ok(numbers)
}

/// An item stands there twice.
pub fn repeats<T: PartialEq>(items: &[T]) -> bool
    ensures { result ≡ repeats T.eq items.now }
{
    match items {
        [] => false,
        [first, rest @ ..] => rest.contains(first) || repeats(rest),
    }
}
