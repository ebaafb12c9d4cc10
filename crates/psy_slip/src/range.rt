//! Which number of a line is out of its range.
ghost use Rattle.std.specs.Prelude.{◌≡◌, map};
ghost use Rattle.psy_page.specs.Told.{said};
ghost use Rattle.psy_slip.specs.Ranges.{from_range, listing_range, numbers_range, processors_range, stall_range, statement_range};

use crate::numbers::{greatest, is_above, is_nothing};
use crate::sentences as words;
use crate::sought::{Sought, first_of};
use crate::statement::{Statement, statement_of};
use psy_base::limits::{RUN, STALL};
use psy_page::{Told, about, about_some, first_told};

/// The first value of a line of inputs that has more than 32 bits.
pub fn listing_range<'a>(words: &[&'a [u8]]) -> Option<Told<'a>>
    ensures { said result ≡ listing_range (map (λ w. w.now) words.now) }
{
    match words {
        [] => None,
        [_, values @ ..] => about_some(words::VALUE_RANGE, first_of(Sought::Beyond, values)),
    }
}

/// The first number of a line of a script that is out of its range.
pub fn statement_range<'a>(words: &[&'a [u8]]) -> Option<Told<'a>>
    ensures { said result ≡ statement_range (map (λ w. w.now) words.now) }
{
    match words {
        [] => None,
        [word, behind @ ..] => match statement_of(word)? {
            Statement::Stall => stall_range(behind),
            Statement::Order => from_range(words::ORDER_RANGE, behind),
            Statement::Round => first_told(&[
                from_range(words::ROUND_RANGE, behind),
                processors_range(behind),
            ]),
        },
    }
}

#[tactic(auto, unfolding(crate::specs::Ranges::stall_range))]
fn stall_range<'a>(words: &[&'a [u8]]) -> Option<Told<'a>>
    ensures { said result ≡ stall_range (map (λ w. w.now) words.now) }
{
    match words {
        [_, action, instr, cycles] => numbers_range(action, instr, cycles),
        _ => None,
    }
}

fn numbers_range<'a>(action: &'a [u8], instr: &'a [u8], cycles: &'a [u8]) -> Option<Told<'a>>
    ensures { said result ≡ numbers_range action.now instr.now cycles.now }
{
    if is_above(STALL, action) {
        Some(about(words::ACTION_RANGE, action))
    } else if is_above(STALL, instr) {
        Some(about(words::INSTRUCTION_RANGE, instr))
    } else if is_nothing(cycles) || is_above(STALL, cycles) {
        Some(about(words::CYCLES_RANGE, cycles))
    } else {
        None
    }
}

// The cycle from which an order or a round holds, with this told of it.
#[tactic(auto, unfolding(crate::specs::Ranges::from_range))]
fn from_range<'a>(told: &'static [u8], words: &[&'a [u8]]) -> Option<Told<'a>>
    ensures { said result ≡ from_range told.now (map (λ w. w.now) words.now) }
{
    match words {
        [cycle, ..] if is_above(RUN, cycle) => Some(about(told, cycle)),
        _ => None,
    }
}

// The greatest of the numbers of a round.
#[tactic(auto, unfolding(crate::specs::Ranges::processors_range))]
fn processors_range<'a>(words: &[&'a [u8]]) -> Option<Told<'a>>
    ensures { said result ≡ processors_range (map (λ w. w.now) words.now) }
{
    match words {
        [_, word, more @ ..] => Some(about(words::NO_PROCESSOR, greatest(word, more))),
        _ => None,
    }
}
